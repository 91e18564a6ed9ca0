//! A walk: a session of a group on one thread, moved by events in any order: the source terminal, the lines
//! with their rings, the sink terminal and the return path. No script is read here and no report is written.
//! Begin with `walk_core::Walk`, or with `walk_core::LiveWalk` where nobody says beforehand what will land.
//!
//! - `walk_core`: a walk of a session on one thread: the source terminal, the lines with their rings, the sink
//!   terminal and the return path, moved by events in any order.
#![tactic(auto)]

pub mod walk_core;
mod walk_parts;
