//! Cells whose containers lie elsewhere, and what is said of a number.

use member_cells::Container;

/// What a line gives in the place of a container, where the container lies elsewhere.
#[derive(Clone, Copy, Debug)]
pub enum CellRef<'a> {
    /// The container as it was sent.
    Good(&'a Container),
    /// The sign of a failure.
    Fail,
    /// The end.
    End,
}

/// What a line gives in the place of a container, where the container of a good cell lies in a place of its own.
#[derive(Clone, Copy, Debug, PartialEq, Eq)]
pub enum CellSign {
    /// The container in that place, as it was sent.
    Good,
    /// The sign of a failure.
    Fail,
    /// The end.
    End,
}

/// What is said of a number of a line.
#[derive(Clone, Copy, Debug)]
pub enum Verdict<'a> {
    /// The container that has this number.
    Whole(&'a Container),
    /// Nothing that came has this number for certain.
    Bad,
}
