//! Frames are written on a sink of octets as lines of text, in blocks: a put is a call of the operating system,
//! so lines wait until many octets are there. After a write that failed nothing more is written: what was
//! written is a prefix. Begin with `GotLines`; `LentGotLines` is the same over a block that is lent, for one
//! who writes often. What a line says is in `text_report`.
#![tactic(auto)]

mod got_text;
mod lent_got_text;
mod text_block;

pub use got_text::{GotLines, MayFail};
pub use lent_got_text::LentGotLines;
pub use text_block::TextBlock;
