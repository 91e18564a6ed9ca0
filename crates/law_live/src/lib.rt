//! What a conversation with a running session is, and that it is a walk. Whoever talks says what happens now: an
//! item lands, a line is cut or mended, some ticks pass. Here is what may be said, how it then stands, the counts
//! and the answers, and the script of it all. There is no code here, and no language that says it. Begin at
//! `script_law`, by which a walk of the script makes the same counts and writes the same frames; `said_law` is
//! about what may be said, `pass_law` and `turn_law` about time, `answer_law` and `grow_law` about what is
//! answered, `member_law` about what it tells of the lines, and `queue_law` of the queue; `agree_law` about the legs of
//! which all that is said, whatever is said later, and `later_law` about what these have in common. In `both_ways` is
//! the same of a conversation with both ways of a pair, from `both_said_law` on.
#![tactic(auto)]

mod answers_that_grow;
mod both_ways;
mod legs_that_agree;
mod script_of_a_conversation;
mod ticks_that_pass;
mod what_comes_later;
mod what_is_answered;
mod what_is_said;
mod what_members_are_told;
mod what_queues_tell;
mod worked_conversations;

pub use answers_that_grow::grow_law;
pub use both_ways::{
    both_answer_law, both_later_law, both_pass_law, both_room_law, both_said_law, both_told_law,
    both_turn_law, both_walk_law, both_worked_law,
};
pub use legs_that_agree::agree_law;
pub use script_of_a_conversation::script_law;
pub use ticks_that_pass::{pass_law, turn_law};
pub use what_comes_later::later_law;
pub use what_is_answered::answer_law;
pub use what_is_said::said_law;
pub use what_members_are_told::member_law;
pub use what_queues_tell::queue_law;
pub use worked_conversations::worked_law;
