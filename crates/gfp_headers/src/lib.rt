//! The core header and the type header of a GFP frame (G.7041): written, and read with what is wrong with them.
//!
//! The type header is here also as a frame with an FCS has it, and one with a linear extension header, which is
//! written and read here too. Nothing here corrects a header, and nothing scrambles. Begin with `core_bytes`
//! and `read_core`, which are inverse for a PLI of 0 or of at least 4;
//! what a header is stands in law_model's `specs/frames`, that of a frame
//! with an FCS in gfp_model's `specs/fcs_model/Fcs.antt`, and the two of a frame of a channel in its
//! `specs/linear_model/ChannelArea.antt`.
#![tactic(auto)]

mod core_header;
mod extension_header;
mod type_header;

pub use core_header::{core_bytes, read_core};
pub use extension_header::{extension_bytes, read_cid};
pub use type_header::{
    read_type, read_type_fcs, read_type_linear, type_bytes, type_bytes_fcs, type_bytes_linear,
};
