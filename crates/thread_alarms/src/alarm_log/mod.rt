//! A log that collects the alarms of many posts through one bounded queue: a post never waits for room, and
//! keeps what the queue has no room for until the end. Of a line whose alarms came through one post alone the
//! log has all that were posted, in order. Threads are not started here, and from what alarms come is not said.
//! Begin with `make_log`, and then `AlarmPost::post`, `AlarmLog::turn` and `AlarmLog::finish`.

mod alarm_post;
mod join_posts;
mod log_turns;
mod open_log;
mod queue_rule;
mod tagged_alarm;
mod take_alarms;

pub use alarm_post::{AlarmPost, Posted};
pub use log_turns::{AlarmList, AlarmLog, Turn};
pub use open_log::make_log;
