//! What became of each frame of a session, found while its rows come: the places at which the pieces of
//! accepted frames begin and end, which rows are whole and why others aren't, and what is confirmed first after
//! each break. It is told of each accepted frame, of the active lines under each packet, of the place that the
//! stream has reached, and of each taken row; it holds no octet of a frame, no row and nothing of a walk. At
//! want of memory nothing changes. Begin with `fate`, and with the three that it asks: `Ruler`, `Packets` and
//! `Segments`.

mod cause_of_row;
mod fate_totals;
mod frame_fate;
mod frame_ruler;
mod packet_rows;
mod row_segments;
mod spoiled_runs;

pub use crate::fate_law::{Cause, Fate, RowSegment, SpoiledRun};
pub use cause_of_row::{is_heard, row_cause};
pub use fate_totals::FateTotals;
pub use frame_fate::{fate, starts_true};
pub use frame_ruler::Ruler;
pub use packet_rows::Packets;
pub use row_segments::{Around, Segments};
pub use spoiled_runs::SpoiledRuns;
