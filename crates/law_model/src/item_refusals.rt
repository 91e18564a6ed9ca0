//! Why an item is refused.

/// Why a frame is refused.
#[derive(Clone, Copy, Debug, PartialEq, Eq)]
pub enum AcceptFault {
    /// Its length, `n` octets, is outside 64 to 9,600.
    Length { n: u64 },
    /// `waiting` frames wait, as many as may.
    QueueFull { waiting: u16 },
}

/// Why a command is refused.
#[derive(Clone, Copy, Debug, PartialEq, Eq)]
pub enum CommandFault {
    /// The line is none of the group's, which has `lines`.
    UnknownLine { lines: u8 },
    /// A line that is to be added is planned already.
    AlreadyIn,
    /// A line that is to be removed isn't planned.
    NotIn,
    /// `pending` accepted commands aren't carried out, as many as may.
    TooManyPending { pending: u8 },
}

/// Why an item of a script is refused.
#[derive(Clone, Copy, Debug, PartialEq, Eq)]
pub enum Refusal {
    /// A frame isn't accepted.
    Frame(AcceptFault),
    /// A command isn't accepted.
    Command(CommandFault),
}
