//! The lines of a script for a client that sends frames at a rate: when each is due, and which octets it has. The
//! text is written line by line, or a prefix of it if a write fails, and `is_too_long` tells before whether a script
//! may be that long. Nothing is run here. Begin with `write_lines`.

mod frame_line;
mod write_rate_text;

pub(crate) use write_rate_text::LONGEST;
pub use write_rate_text::{is_too_long, write_lines};
