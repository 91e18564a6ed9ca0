//! The commands of `vcat_walk` that make no pair.
//!
//! They walk scripts, write and read captures, decode control packets, invert bits of a stream with FCS, carry
//! VC-4s over AU-4 frames and frames of channels over a stream with cuts, answer a live text of one way as it
//! comes, and make loads. Each has a room: a module here for its words and its run, and one of specs/ for what it
//! means. Of the commands of both ways only the words are here; their rooms, and the program as a call, are in
//! `command_walk`. Begin with `WalkCommand`: it has what each command reads and writes. `starts_law` says when
//! nothing is presumed of the headline, `agree_law` that what `service` sums up are the numbers of `fates` and
//! `walk`, `capture_law` whose frames a capture has, `h4_law` which packets `decode` finds in what `h4` writes, and
//! `noise_law`, `au4_law` and `channels_law` which frames and VC-4s are written. No clause here knows how a stream
//! is scrambled.
#![tactic(auto)]

mod commands;
mod hex_text;
mod turns;
mod walk_command;

pub use commands::au4::{au4, au4_law};
pub use commands::capture::{capture, capture_law, capture_read_law};
pub use commands::channels::{channels, channels_law};
pub use commands::check::check;
pub use commands::decode::decode;
pub use commands::fates::{fates, starts_law};
pub use commands::frames::frames;
pub use commands::gfp::gfp;
pub use commands::h4::{h4, h4_law};
pub use commands::live::live;
pub use commands::make::make;
pub use commands::noise::{noise, noise_law};
pub use commands::service::{agree_law, service};
pub use commands::stream::stream;
pub use commands::trace::trace;
pub use commands::walk::walk;
pub use walk_command::WalkCommand;
