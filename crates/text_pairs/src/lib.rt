//! Two scripts in one text, for two sessions that carry each other's return packets. A line of the one word
//! `other` divides them. The language is a definition that computes, `pair_of`: the lines of both scripts as
//! `script_read` has them, with numbers that run on, or the first fault; then what is wrong with either script
//! as a whole, and with both together. The reader gives just that, in one pass over an input in pieces; a fault
//! stays, whatever follows. Nothing is run here. Begin with `read_pair`; `valid_law`: a text that says two
//! scripts says a pair.
#![tactic(auto)]

mod pair_fault_note;
mod pair_limits;
mod pair_reader;
mod pair_script_laws;
mod read_pair_pieces;
mod script_pair;

pub use pair_fault_note::stop_of_pair;
pub use pair_limits::limits_fault;
pub use pair_reader::is_division;
pub use pair_script_laws::{fault_law, valid_law};
pub use read_pair_pieces::read_pair;
pub use script_pair::{PairFault, ScriptPair};
