//! Writes a script as text, without its event lines. Read again the text is the same script, as `read_law` says.
//! Begin with `write_script`; `is_too_long` says before it whether the text is too long to be read.

mod text_laws;
mod text_out;
mod write_script_text;

pub use text_laws::read_law;
pub use write_script_text::{is_too_long, write_script};
