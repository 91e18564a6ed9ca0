//! A group behind pipes: a live text is answered line by line as it comes, by a walk that is told what its lines say.
//! What is replied to a line, and to the end of the text, is a `Dialogue` of specs/ (`live_dialogue`); `talk` of
//! `command_parts` reads the text and puts the replies. Nothing of a text is read here, which is in `text_live`, and
//! no event of a session is made here, which is in `walk_engine`. Begin with `live`; `live_law` says what a
//! conversation is worth. The lines of frames, members and numbers are there for a pair's conversation too.
#![tactic(auto)]

mod answered_walk;
mod answerer;
mod asked;
mod live_command;
mod live_laws;
mod live_notes;
mod live_talker;
mod member_lines;
mod number_lines;
mod timed_lines;
mod walk_by_lines;

pub use answerer::Answerer;
pub use asked::Asked;
pub use live_command::live;
pub use live_laws::live_law;
pub use live_talker::converse;
pub use member_lines::{MEMBERS_ROOM, lines_of_members, states_of};
pub use number_lines::{tell_now, tell_number};
pub use timed_lines::{TimedLines, Whose};
