//! What becomes of the frames of a walk, turn by turn: which client frames have landed, the text of fates, and
//! a capture of the GFP frames that the taken rows carry. No turn is made here: a walk is seen after each of its
//! turns. What a fate is, and how it is found, is in `fate_engine`. Begin with `walk_fates::SeenWalk`.
//!
//! - `walk_frames`: the client's frames in a walk that was made: which of them have landed, and why others are
//!   refused; and the stream that they make tick by tick.
//! - `walk_fates`: what became of each frame of a walk: it is seen after each turn what packets and rows came
//!   of it, then the places of its accepted frames are found, and then the text is written.
//! - `walk_gfp`: the GFP frames of a walk's client, as they are before scrambling, are written as a capture:
//!   each accepted frame that the taken rows carry, with the row of its last octet.
#![tactic(auto)]

pub mod walk_fates;
pub mod walk_frames;
pub mod walk_gfp;
