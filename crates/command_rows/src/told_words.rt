//! Rows of words, and the commands that they are told to be: `WORDS=> COMMAND`, one a line, the words one space apart.

use crate::try_rows::words_of;
use command_words::{FromWords, read_words};
use std::alloc::Global;
use std::fmt::Debug;

/// Whether words are told to be this.
pub fn is_told<C: FromWords + Debug>(alloc: Global, words: &[String], want: &str) -> bool {
    let told = match read_words::<C>(alloc, words) {
        Ok(command) => format!(in alloc; "{command:?}"),
        Err(fault) => format!(in alloc; "{fault}"),
    };
    match told {
        Ok(told) => told.as_str() == want,
        Err(_) => false,
    }
}

/// Whether the words of a row are told to be what it says.
fn is_right<C: FromWords + Debug>(alloc: Global, row: &str) -> bool {
    let (text, want) = row.split_once("=> ").unwrap_or((row, "a row"));
    let words = words_of(alloc, text);
    is_told::<C>(alloc, words.as_slice(), want)
}

/// The first row whose words are told to be something else.
pub fn first_wrong<C: FromWords + Debug>(
    alloc: Global,
    rows: &'static str,
) -> Option<&'static str> {
    for row in rows.lines() {
        if !is_right::<C>(alloc, row) {
            return Some(row);
        }
    }
    None
}
