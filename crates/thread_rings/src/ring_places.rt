//! The places in which items lie while they pass through a ring.
ghost use Rattle.std.specs.Prelude.{◌≡◌};

use member_cells::{BackCell, Cell, Container, HeldContainer};
use member_path::cell_numbers::CellSign;
use std::alloc::{AllocError, Global};

/// What passes through a ring. It lies in a place, which is handed on with it, so that it is never copied itself.
pub trait Placed: Copy {
    /// Where it lies.
    type Place: Drop;

    ghost lies_in: { Self.Place → Self };

    /// A place to be written.
    fn new_place(alloc: Global) -> Result<Self::Place, AllocError>;

    /// Writes it to a place.
    fn put(self, place: &mut Self::Place)
        ensures { lies_in place.new ≡ self };

    /// What lies in a place.
    fn of(place: &Self::Place) -> Self
        ensures { result ≡ lies_in place.now };
}

impl Placed for Container {
    ghost use Rattle.std.specs.Global.{Box};
    ghost use Rattle.law_model.specs.Common.{Container};

    type Place = Box<HeldContainer>;

    ghost lies_in = { λ (place : Box Container). place.value };

    fn new_place(alloc: Global) -> Result<Box<HeldContainer>, AllocError> {
        Ok(Box::new(alloc, HeldContainer::new())?)
    }

    fn put(self, place: &mut Box<HeldContainer>) {
        place.put(&self);
    }

    fn of(place: &Box<HeldContainer>) -> Container {
        *place.container()
    }
}

/// A cell, with a box for its container whether it is good or not.
#[derive(Drop)]
pub struct CellPlace {
    /// Which cell it is.
    pub sign: CellSign,
    /// The box of a good cell's container. Else what lies in it says nothing.
    pub container: Box<HeldContainer>,
}

impl Placed for Cell {
    ghost use Rattle.member_path.specs.cell_numbers.SignsAsCells.{cell_with};
    ghost use Rattle.thread_rings.specs.declared.ring_places.CellPlace.{CellPlace};

    type Place = CellPlace;

    ghost lies_in = { λ (place : CellPlace). cell_with place.sign place.container.value };

    fn new_place(alloc: Global) -> Result<CellPlace, AllocError> {
        Ok(CellPlace {
            sign: CellSign::Fail,
            container: Container::new_place(alloc)?,
        })
    }

    fn put(self, place: &mut CellPlace) {
        match self {
            Cell::Good(container) => {
                place.sign = CellSign::Good;
                place.container.put(&container);
            }
            Cell::Fail => place.sign = CellSign::Fail,
            Cell::End => place.sign = CellSign::End,
        }
    }

    fn of(place: &CellPlace) -> Cell {
        match place.sign {
            CellSign::Good => Cell::Good(*place.container.container()),
            CellSign::Fail => Cell::Fail,
            CellSign::End => Cell::End,
        }
    }
}

impl Placed for BackCell {
    ghost use Rattle.law_model.specs.Common.{BackCell};

    type Place = BackCell;

    ghost lies_in = { λ (cell : BackCell). cell };

    fn new_place(_alloc: Global) -> Result<BackCell, AllocError> {
        Ok(BackCell::Lost)
    }

    fn put(self, place: &mut BackCell) {
        *place = self;
    }

    fn of(place: &BackCell) -> BackCell {
        *place
    }
}
