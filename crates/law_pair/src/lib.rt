//! Each way of a pair is a session by itself, with twice the lag. Its return packets come in the packets of the other
//! way. These are laws over the definitions alone: there is no code here but the types of a pair's events. Begin at
//! `way_law`; `telling_law` says that a session doesn't depend on what its packets tell, `heard_law` that what is read
//! in a packet is the very return packet that it carries, `pair_law` and `walk_law` that a pair is never stuck,
//! whatever is tried in whatever order, and goes in each way as a walk, and `link_law` how the two ways meet.
#![tactic(auto)]

mod heard_in_other_way;
mod pair_events;
mod pair_never_stuck;
mod ways_as_sessions;
mod worked_pairs;

pub use heard_in_other_way::{heard_law, link_law};
pub use pair_events::{PairEvent, Way};
pub use pair_never_stuck::{pair_law, walk_law};
pub use ways_as_sessions::{telling_law, way_law};
pub use worked_pairs::{counts_law, worked_law};
