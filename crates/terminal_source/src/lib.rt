//! The source terminal of a group (G.707, G.7041, G.7042): its LCAS table of members, and what makes the
//! containers of all lines, frame by frame, of the client's frames, the operator's commands and the return
//! packets. When a frame or a command lands is not known here; `terminal_group` holds those that wait. Begin
//! with `lcas_source` and `source_core`.
//!
//! - `lcas_source`: the source's side of LCAS (G.7042): which lines of a group are members, and what the
//!   source tells of each.
//! - `source_core`: the source terminal of a group: it takes the client's frames, the operator's commands and
//!   the return packets, and makes the containers of all lines, frame by frame (G.707, G.7041, G.7042).
#![tactic(auto)]

pub mod lcas_source;
pub mod source_core;
