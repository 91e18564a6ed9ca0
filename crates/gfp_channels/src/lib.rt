//! Client frames of channels that share a stream by linear extension headers (G.7041): queues, filler and
//! receiver, the laws of what each channel gets, and the command's text. A group and its members have no part
//! in it. Begin with `channel_link`; the two modules below it are seen here alone.
//!
//! - `gfp_linear`: the queues of the channels, the filler that writes their stream in turns, and the receiver
//!   that tells the channel of each frame.
//! - `channel_law`: what of each channel a stream carries, what is delivered of it if octets are lost, and what
//!   an answer to a frame depends on.
//! - `channel_link`: what a text says of channels, frames and cuts, and the lines of the frames that get
//!   through.
#![tactic(auto)]

mod channel_law;
pub mod channel_link;
mod gfp_linear;
