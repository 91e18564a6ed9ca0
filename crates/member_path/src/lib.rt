//! The path of a member from source to sink (G.707): the failures that are declared for its line, the line
//! with its delay, the multiframe that its cells carry, and the numbers that a reader gives them. Nothing here
//! makes a container, and rows over all members are made in `member_rows`. Begin with `path_delay::LineCore`
//! and `cell_numbers::LineNumbers`.
//!
//! - `failure_window`: the failures of a line: a list of windows, each of which damages some containers.
//! - `path_delay`: the path of a member: a line that carries container after container with a delay, and fails
//!   in the windows that are declared for it.
//! - `h4_multiframe`: the multiframe of virtual concatenation (G.707): the H4 octet of a frame, and the lock
//!   of a line on the octets that come.
//! - `cell_numbers`: what the cells of a line say of its numbers (G.707): of each number that they decide
//!   whether it is whole, and then its container.
#![tactic(auto)]

pub mod cell_numbers;
pub mod failure_window;
pub mod h4_multiframe;
pub mod path_delay;
