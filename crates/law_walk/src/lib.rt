//! The law that a walk of a leg is a course of its session: whatever events were tried in whatever order,
//! the cells that the sink has popped by the counts decide the rows that the counts say were taken, and these
//! rows and the return packets that came to the source are the session's. There is no code here. Begin at
//! `walk_law`; `ring_law`, `take_law` and `return_law` say what the rings hold by the counts, and
//! `landing_law`, `source_law` and `report_law` what has landed. `delivery_law`, `clear_law`, `near_law`,
//! `failure_law`, `start_law`, `drain_law`, `member_law` and `answer_law` are what is promised of a leg, and
//! `met_law` shows legs that meet what they ask.
#![tactic(auto)]

mod frames_delivered;
mod items_that_landed;
mod legs_that_meet;
mod member_in_use;
mod plan_of_walk;
mod report_of_walk;
mod return_packets_come;
mod rings_by_counts;
mod walks_as_session;
mod what_failures_spoil;

pub use frames_delivered::{delivery_law, frames_law};
pub use items_that_landed::{landing_law, source_law};
pub use legs_that_meet::{met_law, worked_law};
pub use member_in_use::{answer_law, member_law};
pub use plan_of_walk::{line_law, plan_law};
pub use report_of_walk::{drain_law, report_law};
pub use return_packets_come::return_law;
pub use rings_by_counts::{ring_law, take_law};
pub use walks_as_session::{step_law, walk_law};
pub use what_failures_spoil::{clear_law, failure_law, near_law, start_law};
