//! Alarms in the queue.

use thread_rings::Alarm;

/// An alarm with the number of the post that it came through.
#[derive(Clone, Copy, Debug, PartialEq, Eq)]
pub struct Tagged {
    /// The number of the post.
    pub from: u8,
    /// The alarm.
    pub alarm: Alarm,
}
