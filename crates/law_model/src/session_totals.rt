//! The numbers of a session.

/// What came of a session, in numbers.
#[derive(Clone, Copy, Debug, PartialEq, Eq)]
pub struct Totals {
    /// How many ticks were made.
    pub ticks: u32,
    /// How many rows were taken.
    pub taken: u32,
    /// How many frames were accepted.
    pub frames: u32,
    /// How many commands were accepted.
    pub commands: u32,
    /// How many items of either kind were refused.
    pub refused: u32,
    /// How many frames were delivered.
    pub got: u64,
}
