//! Live texts: a configuration, and then what happens, line by line while it happens. What such a text says, its first
//! fault, and the script that says the same afterwards are definitions that compute (`live_lines` and
//! `script_of_live` of the specs); the reader gives just that of one line after another. Nothing is run here, and
//! nothing of a line is kept but what later lines are tested by. Begin with `LiveReader`. A `LiveState` reads the live
//! lines of one way for a text of both, where a word stands before what happens.
#![tactic(auto)]

mod frame_digits;
mod line_help;
mod live_fault;
mod live_keyword;
mod live_laws;
mod live_line;
mod live_reader;
mod read_live_line;

pub use line_help::{keyword_word, live_help};
pub use live_fault::{LiveFault, LiveLineFault};
pub use live_keyword::{EarlierPart, FirstWord, LiveKeyword};
pub use live_laws::{fault_law, said_law, valid_law, worked_law};
pub use live_line::LiveLine;
pub use live_reader::LiveReader;
pub use read_live_line::{LineState, LiveState, count_fault};
