//! Rows on the program of walks.
//!
//! They are for tests alone. Begin with `wrong_walk_of`; `try_rows` of `command_rows` says what a row is.
#![tactic(auto)]

mod walk_program;

pub use walk_program::wrong_walk_of;
