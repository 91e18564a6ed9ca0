//! The parts of a session that need no group: the workers of lines are dealt to line threads and come back; the
//! sink is a duty of the calling thread; threads come back with evidence that their flags were stored, and
//! sleep at their bells while they can't go on; and the ends of rings are laid beside each other at the end.
//! Begin with `start_shares`, `Flag` and `Duty`. `gathered_law` and `ended_law`: once all lines have come to
//! their end, containers, cells, frames and return cells are the session's. `slots_law`: no receive ring is
//! too short. A `Bell` has no clause: it only lets threads sleep; `bell_law` is of a model of it.

mod bell_laws;
mod lay_ring_ends;
mod line_shares;
mod line_thread;
mod opened_lines;
mod session_laws;
mod sink_duty;
mod slot_laws;
mod stop_flag;
mod thread_bell;

pub use bell_laws::bell_law;
pub use lay_ring_ends::{carry_all, lay_receives, lay_sends};
pub use line_shares::{collect, deal};
pub use line_thread::{Held, Kept, serve_all_here, start_shares, take_all_back};
pub use opened_lines::{OpenedLines, open_lines};
pub use session_laws::{ended_law, gathered_law};
pub use sink_duty::{Duty, SinkDuty, Turned};
pub use slot_laws::slots_law;
pub use stop_flag::{Comes, Flag, Heed, Stored};
pub use thread_bell::Bell;
