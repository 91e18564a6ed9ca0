//! Reads the words of a command line: whether they may be a command at all, their numbers, and which command of
//! a program they are. No command is known here by its name: a program brings its own, by `FromWords`. Nothing
//! is run here. Begin with `read_words`: it gives the command or the usage, and else only want of memory.
#![tactic(auto)]

mod clap_parser;
mod number_word;
mod plain_words;
mod word_reading;

pub use number_word::number_within;
pub use word_reading::{FromWords, WordFault, read_words};
