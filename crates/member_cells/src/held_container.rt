//! A container that is held in one place and used again and again.
ghost use Rattle.std.specs.Prelude.{◌≡◌};
ghost use Rattle.std.specs.Borrow.{sem};
ghost use Rattle.member_cells.specs.HeldPlaces.{blank};
ghost use Rattle.member_cells.specs.Lending.{LendsContainer};

use crate::{Container, PAYLOAD};
use std::marker::Model;

/// A container in a place of its own. It is known whether its payload was written since it was last blank, so
/// that blanking it again costs nothing.
#[derive(Drop)]
pub struct HeldContainer {
    container: Container,
    /// Nothing was written to the payload since it was blank.
    is_blank: bool,
}

impl Model for HeldContainer {
    ghost use Rattle.std.specs.Prelude.{◌≡◌, true, replicate};
    ghost use Rattle.member_cells.specs.declared.containers_and_cells.Container.{Container};

    ghost Value = { Container };

    ghost view = { λ held. held.container };

    ghost invariant = { λ held. held.is_blank ≡ true →
        held.container.payload ≡ replicate 2340 0 };
}

impl HeldContainer {
    /// A blank container.
    pub fn new() -> HeldContainer
        ensures { result ≡ blank 0 }
    {
        HeldContainer {
            container: Container {
                h4: 0,
                payload: [0; PAYLOAD],
            },
            is_blank: true,
        }
    }

    /// The container.
    #[inline]
    pub fn container(&self) -> &Container
        ensures { result.now ≡ self.now }
    {
        &self.container
    }

    /// Writes H4, and zeros to the payload.
    #[inline]
    pub fn begin_blank(&mut self, h4: u8)
        ensures { self.new ≡ blank h4 }
    {
        if self.is_blank {
            self.container.h4 = h4;
            return;
        }
        write_blank(h4, &mut self.container);
        self.is_blank = true;
    }

    /// The container, to be written.
    #[inline]
    pub fn container_mut(&mut self) -> &mut Container
        ensures* lends { sem 𝓛 (LendsContainer self.entry result) }
        ensures value { result.now ≡ self.old }
    {
        self.is_blank = false;
        &mut self.container
    }

    /// Copies a container here.
    #[inline]
    pub fn put(&mut self, container: &Container)
        ensures { self.new ≡ container.now }
    {
        self.is_blank = false;
        self.container = *container;
    }
}

/// Writes H4, and zeros to the payload.
fn write_blank(h4: u8, container: &mut Container)
    ensures { container.new ≡ blank h4 }
{
    container.h4 = h4;
    container.payload = [0; PAYLOAD];
}
