//! How many members carry payload, and in which rows.

/// Rows in which as many members carry payload: as many in turn as there are.
#[derive(Clone, Copy)]
pub struct WidthRun {
    /// The first of them, counted from 0.
    pub first: u32,
    /// The first row after them.
    pub end: u32,
    /// The members that carry payload.
    pub members: u32,
}
