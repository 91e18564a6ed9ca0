//! The lines of text that a session's report is made of: one for each delivered frame, one for each refused
//! item, and one of totals.
//!
//! Each line is put together at the front of a slice that the caller gives, and nothing is written to an
//! output here. Begin with `got_line`, `refused_line` and `total_line`; `TextCursor` puts any line together,
//! and is there for the texts of other crates too, as is `add_refusal`.
#![tactic(auto)]

mod report_text;
mod text_cursor;

pub use report_text::{
    GOT_ROOM, REFUSED_ROOM, TOTAL_ROOM, add_refusal, got_line, refused_line, total_line,
};
pub use text_cursor::TextCursor;
