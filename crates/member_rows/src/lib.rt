//! Rows over the members of a group (G.707, G.7042): the control packets that their lines carry, rows by
//! number over lines of different delays, and the payload dealt octet by octet to members and joined again.
//! What a row gives is not said here. Begin with `realign_rows::RowGather` and `vcat_interleave`.
//!
//! - `lcas_packet`: reads the sixteen nibbles of a control packet (LCAS, G.7042).
//! - `realign_rows`: realignment: the rows of a group, number by number over all its lines, and the control
//!   packets that its lines carry (G.707, G.7042).
//! - `vcat_interleave`: the payload of a group, dealt octet by octet to its members and joined again (G.707).
#![tactic(auto)]

pub mod lcas_packet;
pub mod realign_rows;
pub mod vcat_interleave;
