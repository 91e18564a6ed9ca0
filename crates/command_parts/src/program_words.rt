//! The words of the command line.

use std::alloc::AllocError;
use std::env::{Env, FillError};

/// The exit status where memory is short.
pub const NO_MEMORY: u8 = 7;

/// The words after the program's name. One that isn't UTF-8 is given as `-`.
pub fn given_words<R: Env + AllocGlobal>(rt: &R) -> Result<Vec<String>, AllocError> {
    let mut words = Vec::new(rt.alloc());
    for i in 1..usize::MAX {
        match word(rt, i)? {
            Some(word) => words.push(word)?,
            None => break,
        }
    }
    Ok(words)
}

/// One word, where there is one.
fn word<R: Env + AllocGlobal>(rt: &R, i: usize) -> Result<Option<String>, AllocError> {
    for doublings in 0..40u32 {
        let mut buf = vec![in rt.alloc(); 0u8; 256 << doublings]?;
        match rt.arg(i, &mut buf) {
            Ok(n) => {
                buf.truncate(n);
                return text(rt, buf).map(Some);
            }
            Err(FillError::NotPresent) => return Ok(None),
            Err(FillError::TooLong) => {}
        }
    }
    Err(AllocError)
}

/// The octets as text, or `-` where they aren't UTF-8.
fn text<R: AllocGlobal>(rt: &R, octets: Vec<u8>) -> Result<String, AllocError> {
    match String::from_utf8(octets) {
        Ok(text) => Ok(text),
        Err(_) => String::from_str(rt.alloc(), "-"),
    }
}
