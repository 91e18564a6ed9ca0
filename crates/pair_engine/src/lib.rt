//! A pair of sessions on one thread: two groups, one each way, that tick together. What the sink of a way says
//! of it goes in the control packets of the other way, and is lost if no line of that way has a packet that can
//! be read. Events move it in any order, and each answers whether it moved, in which way and why it stalled, or
//! why the item that landed is refused, just as the scripts and the counts of the pair say; rounds of events
//! drain it until all rows of both ways are taken. The frames that come through are given to a `FrameOut` a
//! way. A `LivePair` is the same without scripts: it is told what lands as it lands, and which lines are cut and
//! mended. No script is read here and no report is written. Begin with `Pair`; what a pair gives by its scripts
//! stands in `law_pair`, and each of its ways is a `WayCore`.
#![tactic(auto)]

mod both_ways;
mod live_pair;
mod live_way;
mod next_items;
mod pair_answers;
mod pair_way;
mod said_packets;
mod ways_meet;

pub use both_ways::Pair;
pub use law_pair::{PairEvent, Way};
pub use live_pair::LivePair;
pub use pair_answers::PairMoved;
