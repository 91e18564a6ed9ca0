//! Scripts: the reader and the writer of their text, the load that is drawn from a number, and the `frame` lines of a
//! client at a rate.
//! What comes of a script isn't said here. Begin with `script_read::ScriptReader`; the language is the
//! definition `script_of` in `specs/script_read`.
//!
//! - `script_read`: reads a script: the text that says what network, operator and client of a session do.
//! - `script_text`: writes a script as text, which is read as the same script.
//! - `make_load`: makes the script of a load from a number: lines whose delays are drawn, all added at once,
//!   and a frame for each eight ticks, whose length and octets are drawn.
//! - `rate_load`: the lines of a script for a client that sends frames at a rate.
#![tactic(auto)]

pub mod make_load;
pub mod rate_load;
pub mod script_read;
pub mod script_text;
mod window_lists;
