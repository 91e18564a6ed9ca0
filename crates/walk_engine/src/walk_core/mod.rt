//! A walk of a session on one thread: the source terminal, the lines with their rings, the sink terminal and
//! the return path, moved by events in any order. A `Walk` begins with a script. Each event answers whether it
//! moved, what stalled it, or why the item that landed is refused, just as the script and the counts of the
//! walk say; rounds of events drain a walk until all rows are taken. The frames that come through are given to
//! a `FrameOut` on the way; refusals, totals and the source's table can be read at any time. No script is read
//! here and no report is written. Begin with `Walk`; the laws of what a walk gives stand in `law_walk`. In it
//! is a `LiveWalk`, which begins without a script and is told what lands as it lands; and all of that but the
//! return path is a `WayCore`, of which a pair of sessions has two.

mod counted_frames;
mod live_walk;
mod one_way;
mod open_way;
mod send_rings;
mod step_answers;
mod take_rows;
mod walk;

pub use law_model::{Event, StallCause};
pub use live_walk::LiveWalk;
pub use one_way::WayCore;
pub use step_answers::{Moved, StepNote, is_step};
pub use walk::Walk;
