//! Alarms of lines on threads: a line that is watched burst by burst, the log to which its alarms go through
//! one bounded queue, the law of how many there are at most, and their text. An alarm tells that a line fails,
//! that it is back, or that it ended: no persistence is awaited. A line is served just the same if nobody
//! watches it. Begin with `watched_line` and `alarm_log::AlarmLog`.
//!
//! - `alarm_law`: laws of the alarms of a line: how many there are at most, and that more cells change nothing
//!   of those that stand.
//! - `alarm_log`: a log that collects the alarms of many posts through one bounded queue: a post never waits
//!   for room, and keeps what the queue has no room for until the end.
//! - `watched_line`: the line of a member as it is served, burst by burst: its worker, and beside it the post
//!   to which the alarms of each burst go, if the line is watched.
//! - `alarm_text`: alarms as lines of text, line by line of the group.
#![tactic(auto)]

mod alarm_law;
pub mod alarm_log;
pub mod alarm_text;
pub mod watched_line;
