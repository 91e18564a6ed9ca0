//! A sink finds whole the very rows that the source's table and the failures make whole. It counts the active packets
//! that it reads, and says the return packets that the definition of a session says. There is no code here. Begin at
//! `row_law`; `carriers_law` says that a sink which goes on without some packets is never misled, and `return_law` is
//! of return packets.
#![tactic(auto)]

mod return_packets;
mod whole_rows;
mod worked_rows;

pub use return_packets::return_law;
pub use whole_rows::{carriers_law, row_law};
pub use worked_rows::worked_law;
