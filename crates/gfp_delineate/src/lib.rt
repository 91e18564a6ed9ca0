//! Delineation: the frames that are found in a stream of GFP frames (G.7041), from any place of it on.
//!
//! It is the receiver of one stream. It keeps one frame at a time, and neither joins rows of octets nor knows
//! why the stream breaks. `Delineator` is the place to begin: `feed` takes octets up to the first answer that
//! isn't Nothing, `byte` one octet, `frame` is the frame that the last of these calls completed,
//! and `broken` begins a new segment. `delivery_law` says what comes of a stream that is taken from its start;
//! `idle_place`, from which place on idle frames change nothing.
//!
//! Below it `AreaReceiver` finds the payload areas, whatever is in them, and may correct headers in SYNC.
//! Receivers of other kinds of frames stand on it too, with readers of headers of their own.
#![tactic(auto)]

mod area_octets;
mod corrected_header;
mod delineator;
mod hunt_presync_sync;
mod idle_runs;
mod receiver_steps;

pub use crate::area_octets::first_four;
pub use crate::hunt_presync_sync::{AreaReceiver, AreaStep, AreaWhy};
pub use crate::idle_runs::word_run;
pub use delineator::{Delineator, Step, delivery_law};
