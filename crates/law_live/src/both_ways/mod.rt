//! What a conversation with both ways of a pair at once is. What is said of one way is a conversation with it, so each
//! way has a script; and these are a pair, whose sessions carry each other's return packets.

mod both_as_walks;
mod what_both_answer;
mod what_both_are_told;
mod what_both_share;
mod what_both_were_told;
mod worked_pair_conversations;

pub use both_as_walks::both_walk_law;
pub use what_both_answer::both_answer_law;
pub use what_both_are_told::{both_room_law, both_told_law};
pub use what_both_share::both_later_law;
pub use what_both_were_told::{both_pass_law, both_said_law, both_turn_law};
pub use worked_pair_conversations::both_worked_law;
