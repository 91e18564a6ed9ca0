//! What the source's table and the sink say of a line (G.7042), and what an operator asks of the source.

/// What a line that has a sequence number is.
#[derive(Clone, Copy, Debug, Default, PartialEq, Eq)]
pub enum Standing {
    /// It is added, and the sink has not confirmed it.
    #[default]
    Add,
    /// It carries payload.
    Norm,
    /// It carries no payload, since the sink says that it fails.
    Dnu,
}

/// A line that has a sequence number.
#[derive(Clone, Copy, Debug, Default, PartialEq, Eq)]
pub struct Member {
    /// The line, numbered from 0.
    pub line: u8,
    /// What it is.
    pub standing: Standing,
}

/// The state of a line at the source.
#[derive(Clone, Copy, Debug, PartialEq, Eq)]
pub enum SourceState {
    /// It is no member of the group.
    Idle,
    /// It is added, and the sink has not confirmed it.
    Add,
    /// It carries payload.
    Norm,
    /// It carries no payload, since the sink says that it fails.
    Dnu,
    /// It is removed, and the sink has not confirmed it.
    Remove,
}

/// The state of a line at the sink.
#[derive(Clone, Copy, Debug, PartialEq, Eq)]
pub enum SinkState {
    /// It is no member of the group, as far as the sink has read.
    Idle,
    /// It is a member, and its last packet was read.
    Fine,
    /// It is a member, and its last packet could not be read.
    Failed,
}

/// What an operator asks for.
#[derive(Clone, Copy, Debug, PartialEq, Eq)]
pub enum Command {
    /// The line is to be a member of the group.
    Add(u8),
    /// The line is to be no member of the group.
    Remove(u8),
}

/// A command for the unused places of a list of commands.
impl Default for Command {
    fn default() -> Command {
        Command::Add(0)
    }
}
