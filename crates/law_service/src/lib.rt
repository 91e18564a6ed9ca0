//! What a failure costs, how long frames wait, and that a client within a bucket is refused nothing. Here are also
//! where frames end on the stream, that delays take none of them, how a walk goes by the clock, that it ends whoever
//! tries its events in whatever order, and that more rows take nothing back. There is no code here. Begin at
//! `place_law`, and for failures at `cost_law`; `met_law` shows legs that meet what is asked, and `worked_law` that
//! bounds are reached.
#![tactic(auto)]

mod client_within_a_bucket;
pub mod cost_of_failures;
mod delays_cost_no_frame;
mod events_tried_again;
mod legs_that_reach_bounds;
mod more_rows_keep_fates;
mod walk_by_the_clock;
mod where_frames_end;

pub use client_within_a_bucket::bucket_law;
pub use delays_cost_no_frame::twins_law;
pub use events_tried_again::{turns_law, worked_turns_law};
pub use legs_that_reach_bounds::{met_law, worked_law};
pub use more_rows_keep_fates::{kept_law, worked_kept_law};
pub use walk_by_the_clock::{clock_law, worked_clock_law};
pub use where_frames_end::place_law;
