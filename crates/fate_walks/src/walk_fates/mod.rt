//! What became of each frame of a walk: it is seen after each turn what packets and rows came of it
//! (`see_since`), then the places of its accepted frames are found (`place_frames`), and then the text is
//! written (`write_fates`), or a prefix of it if a write fails. `accepted_fate` says what became of one frame.
//! No turn is made here. Begin with `SeenWalk`.

mod fates_report;
mod frame_places;
mod seen_rows;

pub use fates_report::{accepted_fate, write_fates};
pub use frame_places::place_frames;
pub use seen_rows::{SeenRows, SeenWalk, nothing_seen, see_since};
