//! What a line of a live text says.

/// What a line says.
#[derive(Clone, Copy, Debug)]
pub enum LiveLine {
    /// Nothing: it has no words, or is a comment.
    Blank,
    /// Something of the configuration, a failure that is known before, or a loss of return packets.
    Setting,
    /// The client sends the frame whose octets the reader has.
    Frame,
    /// The operator adds a line to the group.
    Add(u8),
    /// The operator removes a line from the group.
    Remove(u8),
    /// The containers of a line that are made from now on are damaged.
    Cut(u8),
    /// Those that are made from now on are not.
    Mend(u8),
    /// So many ticks pass.
    Pass(u32),
}
