//! Realignment: the rows of a group, number by number over all its lines, and the control packets that its
//! lines carry (G.707, G.7042). A row comes exactly if each line decides it, and else the least line is told
//! that doesn't. Whether a row is whole, and what it gives, is not said here. Begin with `RowGather`.

mod gather_line;
mod packet_nibbles;
mod row_gather;

pub use row_gather::RowGather;

/// Whether the next row is decided on each line.
#[derive(Clone, Copy, Debug, PartialEq, Eq)]
pub enum RowAnswer {
    /// It is.
    Row,
    /// It isn't on some line.
    Waiting {
        /// The least such line.
        line: u8,
    },
}
