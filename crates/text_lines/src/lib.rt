//! Lines of text for every command that reads them: lines and their words, numbers within a range, hexadecimal
//! digits, and what can be wrong with a line. `Language` of the specs is a language of lines as plain data:
//! what a text says in it, or its first fault by number, computes (`said_by`). Which line that is stands in the
//! laws of each language, by `first_fault` and `all_said` of proofs/. `Table` is such a language by its keywords,
//! their places, the words behind them and what a line adds; `read_text` reads a text of it. Which words a line
//! may have isn't known here, but for the names that a word has to be one of (`Names`). Begin with `LineTable`, or
//! with `next_line`, and with `number_within` and `octets_within` for what a word says.
#![tactic(auto)]

mod read_by_table;
mod read_fields;
mod split_text;
mod split_words;
mod text_faults;

pub use read_by_table::{LineTable, count_fault, one_number, read_text};
pub use read_fields::{number_within, octets_within};
pub use split_text::{cut, next_line, next_whole_line, without_return};
pub use split_words::{
    count_words, first_word, four_words, next_word, one_word, spells, three_words, two_words,
};
pub use text_faults::{FieldFault, FieldStop, LineFault, LineKind, LineStop, Names, TextFault};
