//! A pair behind pipes: a live text of both ways is answered line by line as it comes, by a pair of walks that are told
//! what its lines say. What is replied to a line, and to the end of the text, is a `Dialogue` of specs/
//! (`pair_dialogue`); `talk` of `command_parts` reads the text and puts the replies. No event of a pair is made here,
//! which is in `pair_engine`. Begin with `live_pair`; `live_pair_law` says what a conversation is worth.
#![tactic(auto)]

// What a text says.
mod live_pair_fault;
mod live_pair_line;
mod live_pair_reader;
mod pair_live_notes;
mod pair_text_laws;
mod read_pair_line;
// What answers it.
mod answered_pair;
mod way_lines;
// The conversation.
mod pair_by_lines;
mod pair_command;
mod pair_laws;

pub use live_pair_fault::{LivePairFault, PairLineFault};
pub use live_pair_line::LivePairLine;
pub use live_pair_reader::LivePairReader;
pub use pair_command::live_pair;
pub use pair_laws::live_pair_law;
pub use pair_text_laws::{pair_fault_law, pair_said_law, pair_text_worked_law, pair_valid_law};
