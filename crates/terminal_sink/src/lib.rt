//! The sink terminal of a group (G.707, G.7041, G.7042): it takes the rows of its lines one by one, gives the
//! frames that come through, and says the return packets. How rows are made of the cells of lines is in
//! `member_rows`. Begin with `sink_core::SinkCore`; `lcas_sink` is what it tells the source, `marked_delineator` its
//! receiver.
//!
//! - `lcas_sink`: the sink's side of LCAS (G.7042): what it tells the source of the control packets that it
//!   read.
//! - `marked_delineator`: the receiver of a stream of GFP frames (G.7041) that also tells of each segment which place
//!   was confirmed first in it: its mark.
//! - `member_watch`, which is private: whether a line is up by its timers, and what it said last.
//! - `active_lines`, `known_carriers` and `line_list`, which are private: the lines that carry payload, by the
//!   packets that were read and what silent lines said last, in a list that takes no memory of its own.
//! - `sink_core`: the sink terminal of a group: it takes the rows of its lines one by one, gives the frames
//!   that come through, and says the return packets (G.707, G.7041, G.7042).
#![tactic(auto)]

mod active_lines;
mod known_carriers;
pub mod lcas_sink;
mod line_list;
pub mod marked_delineator;
mod member_watch;
pub mod sink_core;
