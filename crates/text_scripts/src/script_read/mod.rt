//! Reads a script: the text that says what network, operator and client of a session do. The language is a
//! definition that computes, `script_of`: lines, words, and for each line the first fault that it has or what
//! it adds to the lines before it; the reader gives just that, in one pass. Every script that it gives meets
//! `IsValid`. A fault stays, whatever follows. Nothing is run here, and no text is written. Begin with
//! `ScriptReader`, which takes a text in pieces; `read_script` reads one that is whole. `fault_law` says which
//! texts are scripts, `stream_law` that a stream says what the lines of its frames do, and `valid_law` that a text that
//! is a script says one that can be walked.

mod grow_draft;
mod item_words;
mod line_place;
mod network_words;
mod option_words;
mod read_statement;
mod script_draft;
mod script_fault;
mod script_keyword;
mod script_laws;
mod script_limits;
mod script_reader;
mod stream_words;
mod whole_script;
mod word_count_fault;

pub use script_fault::{LineFault, ScriptFault, SizesFault};
pub use script_keyword::{Keyword, Part};
pub use script_laws::{fault_law, stream_law, valid_law};
pub use script_limits::{least_lag, limit_fault};
pub use script_reader::ScriptReader;
pub use whole_script::read_script;
