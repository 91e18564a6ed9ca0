//! Alarms of a line: what is told of the cells that it sent.

/// What an alarm says.
#[derive(Clone, Copy, Debug, Default, PartialEq, Eq)]
pub enum AlarmKind {
    /// The line fails.
    #[default]
    Fails,
    /// The line returns.
    Returns,
    /// The line ends.
    Ends,
}

/// An alarm of a line, at a place among the cells that it sent.
#[derive(Clone, Copy, Debug, Default, PartialEq, Eq)]
pub struct Alarm {
    /// The line.
    pub line: u8,
    /// The place, counted from 0.
    pub place: u32,
    /// What it says.
    pub kind: AlarmKind,
}
