//! The accepted items, which contracts alone read.

ghost use Rattle.std.specs.Prelude.{◌≡◌, List, [], ◌∷◌, ◌++◌};
ghost use Rattle.std.specs.Borrow.{ftrue};
ghost use Rattle.law_walk.specs.Common.{Numbered};

use std::marker::Model;
use terminal_group::ItemRef;

/// An item that was accepted: its number, and how many ticks were made when it landed.
#[derive(Clone, Copy)]
pub(crate) struct Entry<'a> {
    pub(crate) number: u32,
    pub(crate) ticks: u32,
    pub(crate) item: ItemRef<'a>,
}

/// The accepted items in the order in which they landed. They take no memory.
#[derive(Drop)]
pub(crate) struct Accepted {
    ghost entries: { List Numbered },
}

impl Model for Accepted {
    ghost also_owns = { λ _. ftrue };
}

// They own nothing, so a group may go to another thread with them.
unsafe impl Send for Accepted {}

impl Accepted {
    ghost use Rattle.terminal_group.specs.Item.{kind_of};
    ghost use Rattle.thread_group.specs.Journal.{entry_of};

    /// None.
    pub(crate) fn new() -> Accepted
        ensures { result.entries ≡ [] }
    {
        Accepted {}
    }

    /// These, and one that has landed after them.
    pub(crate) fn with(&self, _entry: &Entry<'_>) -> Accepted
        ensures { result.entries ≡ self.now.entries
            ++ entry_of _entry.now.number _entry.now.ticks (kind_of _entry.now.item) ∷ [] }
    {
        Accepted {}
    }
}
