//! A session of a group on threads: the client, the operator, the source and the lines each by itself, and the
//! sink on the thread that calls. Whatever the order in which they go on, what has come of it in the end is
//! what the script says: the records `IsEnded` and `IsGroupEnded` of named facts. At want of memory nothing is
//! said. It promises nothing of when that is, nor that it ends. Begin with `run_session`, and with
//! `run_watched` if alarms are wanted too.

mod finish_in_turn;
mod group_turns;
mod open_ends;
mod opened_session;
mod plain_session;
mod room_and_flags;
mod start_threads;
mod watched_session;

pub use opened_session::Ended;
pub use plain_session::run_session;
pub use watched_session::run_watched;
