//! The line of a member as it is served, burst by burst: its worker, and beside it the post to which the alarms
//! of each burst go, if the line is watched. What was posted are the alarms of all cells that were sent, in
//! order and each once. It starts no thread, and what becomes of the alarms after the post is not its matter.
//! Begin with `ServedLine`, and then `serve_lines` and `split_lines`.

mod serve_lines_watched;
mod served_line;

pub use serve_lines_watched::{serve_lines, split_lines};
pub use served_line::ServedLine;
