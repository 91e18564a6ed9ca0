//! What a walk was worth to its client: how many members carried payload and when, the outages with what they
//! cost, and by stretches of ticks the frames and octets that were offered, refused, got and lost, the
//! capacity, the queue and the delay. No turn is made here: it is all worked out from a walk that was seen,
//! and what became of a frame is asked of `fate_walks`. Begin with `write_service`.
//!
//! - `landed_frames`: the client's frames that have landed, in the columns that the sums need.
//! - `row_states`: what each taken row is: whole, whole and not yet of use, or not whole.
//! - `outages`: the longest runs of rows that are of no use, and the frames that are lost in each.
//! - `stretch_counts`: the counts of a stretch, from one tick to another.
//! - `frame_delays`: the delays that so many frames don't exceed.
//! - `service_text`: the lines of the text.
//! - `service_report`: what is found of a walk, and the text that is written of it.
//! - `service_law`: the laws of the text: what adds up, what the queue counts, and what an outage is.
#![tactic(auto)]

mod frame_delays;
mod landed_frames;
mod outages;
mod row_states;
pub mod service_law;
mod service_report;
mod service_text;
mod stretch_counts;
mod width_run;

pub use service_report::{Survey, survey_walk, write_service};
