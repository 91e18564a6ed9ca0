//! What became of each frame of a session, and why: the laws of fates, the code that finds them while rows
//! come, and the lines of their text. Nothing of a walk is held here; `fate_walks` brings the two together.
//! Begin with `fate_core::fate`, and for the laws with `fate_law::got_law`.
//!
//! - `fate_law`: the laws of fates: what became of each frame of a stream that comes in rows, and whether what
//!   is confirmed after each break was true.
//! - `fate_core`: what became of each frame of a session, found while its rows come, which rows are whole and
//!   why others aren't, and what is confirmed first after each break.
//! - `fate_text`: the lines of the text of fates: one for each run of rows that aren't whole, each segment but
//!   the first, and each client item that has landed, and the last one, of numbers.
#![tactic(auto)]

pub mod fate_core;
pub mod fate_law;
pub mod fate_text;
