//! What return packets tell the source, how soon an added line is in use, what is accepted. These are the laws of a
//! session over the definitions alone, with those of its timers and of the client's stream. There is no code here.
//! Begin at `feedback_law`, by which one bit of a return packet stands for a whole count of changes; by
//! `silent_law` a line that carries payload was last read as a member; `use_law`, `readable_law`, `journal_law`
//! and `client_law` have the rest; and for timers at `held_law`.
#![tactic(auto)]

mod accepted_items_again;
mod client_octets;
mod feedback_of_changes;
mod members_with_timers;
mod packets_that_arrive;
mod return_cells;
mod when_lines_are_in_use;
mod worked_sessions;

pub use accepted_items_again::journal_law;
pub use client_octets::client_law;
pub use feedback_of_changes::{feedback_law, silent_law};
pub use members_with_timers::{
    flap_law, held_law, quiet_law, round_law, up_law, window_law, worked_flap_law, worked_held_law,
};
pub use packets_that_arrive::readable_law;
pub use return_cells::session_law;
pub use when_lines_are_in_use::use_law;
pub use worked_sessions::{worked_law, worked_timers_law};
