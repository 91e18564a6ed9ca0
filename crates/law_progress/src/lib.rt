//! The law that a walk of a session is never stuck, in numbers: how many ticks, items, carries, cells, rows
//! and return packets there are. There is no code here, and nothing is said of what a cell or a row holds.
//! Begin at `progress_law`.
#![tactic(auto)]

mod line_in_numbers;
mod never_stuck;
mod worked_counts;

pub use line_in_numbers::line_law;
pub use never_stuck::progress_law;
pub use worked_counts::worked_law;
