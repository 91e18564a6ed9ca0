//! What a burst of the sink did.

/// Why nothing moved.
#[derive(Clone, Copy, Debug, PartialEq, Eq)]
pub enum SinkIdle {
    /// The next row isn't decided on a line, and the look at its ring found no cell.
    Waiting {
        /// The least such line.
        line: u8,
    },
    /// The next row makes a return packet, and the look at the return ring found no slot.
    BackFull,
}

/// What a burst did.
#[derive(Clone, Copy, Debug, PartialEq, Eq)]
pub enum SinkBurst {
    /// A row was taken, or a cell popped.
    Moved,
    /// Neither was.
    Idle(SinkIdle),
    /// All rows had been taken before.
    Done,
}
