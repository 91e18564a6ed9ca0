//! Client frames with a frame check sequence (FCS) in a stream with bit errors: the encoder, the receiver that
//! corrects core headers, the law of which frames get through, and the command's text. A group and its members
//! have no part in it. Begin with `noise_link`; the two modules below it are seen here alone.
//!
//! - `flip_law`: laws of a stream with single bit errors: header correction reads each core header,
//!   descrambling makes of one error two at most, the FCS finds it, and the frames that get through are just
//!   those that none touches.
//! - `gfp_fcs`: the FCS as a number, the encoder of a stream of frames with FCS, and the receiver, which
//!   corrects core headers with one wrong bit.
//! - `noise_link`: what a text says of frames and bit errors, and the lines of the frames that get through.
#![tactic(auto)]

mod flip_law;
mod gfp_fcs;
pub mod noise_link;
