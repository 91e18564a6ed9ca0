//! Definitions of two kinds of GFP frames (G.7041) that the stream of a session doesn't have: client frames
//! with a frame check sequence after them, and client frames of channels that share a stream. The frames of a
//! session are defined in `law_model`. Nothing is read or written here. Begin with `specs/fcs_model/Fcs.antt`
//! and `specs/linear_model/ChannelArea.antt`.
//!
//! - `fcs_model`: client frames with a frame check sequence after them: their areas, what comes of one, bit
//!   errors on the way, and core headers that are read in spite of one bit error.
//! - `linear_model`: client frames that share a stream by channel numbers: their areas with linear extension
//!   headers, what comes of one, the queues of the channels and whose turn it is, and the stream with its cuts.
#![tactic(auto)]

pub mod fcs_model;
pub mod linear_model;
