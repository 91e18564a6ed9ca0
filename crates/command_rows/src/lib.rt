//! Rows of words, inputs and wanted answers, and what tries them on a program that is a call: for tests alone.
//!
//! Begin with `try_rows`, which says what a row is. `told_words` has rows of words alone, and `beginnings_of_script` a row
//! that both programs are tried on.
#![tactic(auto)]

mod beginnings_of_script;
mod told_words;
mod try_rows;

pub use beginnings_of_script::beginning_row;
pub use told_words::{first_wrong, is_told};
pub use try_rows::{Called, Ends, Turns, wrong_of};
