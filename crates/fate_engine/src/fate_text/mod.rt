//! The lines of the text of fates: one for each run of rows that aren't whole, each segment but the first,
//! and each client item that has landed, and the last one, of numbers.
//!
//! Each line is put together at the front of a slice that the caller gives, and nothing is written to an
//! output here. What a line says is found in `fate_core`. Begin with `fate_line`.

mod fate_lines;

pub use fate_lines::{
    FATE_LINE_ROOM, Tally, ToldMark, add_cause, add_refused, fate_line, fates_line, refused_line,
    segment_line, spoiled_line, truth,
};
