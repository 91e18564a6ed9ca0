//! The ticks in which the frames of a capture are due.
ghost use Rattle.std.specs.Prelude.{◌≡◌, ◌<◌, ◌++◌, [], ◌∷◌, List, max};
ghost use Rattle.text_captures.specs.capture_file.Form.{Record};
ghost use Rattle.text_captures.specs.capture_file.Reading.{time_of};

use crate::capture_file::capture_form::{RecordHead, TimeUnit};

/// What is known of the times of records that were read.
#[derive(Drop)]
pub struct Clock {
    /// The unit of their times.
    pub unit: TimeUnit,
    /// The time of the first one, in nanoseconds.
    pub first: Option<u64>,
    /// The tick in which the last frame is due.
    pub due: u64,
}

/// The time of a record in nanoseconds.
#[inline]
fn time_of(unit: TimeUnit, head: RecordHead) -> u64
    ensures { result ≡ time_of unit head }
{
    let fraction = match unit {
        TimeUnit::Microseconds => 1_000 * u64::from(head.fraction),
        TimeUnit::Nanoseconds => u64::from(head.fraction),
    };
    1_000_000_000 * u64::from(head.seconds) + fraction
}

impl Clock {
    ghost use Rattle.text_captures.specs.capture_file.Clock.{ClockStands};

    /// No record was read.
    pub fn new(unit: TimeUnit) -> Clock
        ensures stands { ClockStands result [] }
        ensures unit { result.unit ≡ unit }
    {
        Clock {
            unit,
            first: None,
            due: 0,
        }
    }

    /// The tick in which the frame of the next record is due.
    #[inline]
    pub fn due(&mut self, head: RecordHead) -> u64
        ensures stands { (before : List Record) (r : Record) → ClockStands self.old before →
            r.head ≡ head → ClockStands self.new (before ++ r ∷ []) }
        ensures unit { self.new.unit ≡ self.old.unit }
        ensures due { result ≡ self.new.due }
    {
        let time = time_of(self.unit, head);
        let first = self.first.unwrap_or(time);
        self.first = Some(first);
        self.due = self.due.max(time.saturating_sub(first) / 125_000);
        self.due
    }
}
