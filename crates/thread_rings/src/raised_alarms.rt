//! What the cells of a line raise, one after another.
ghost use Rattle.std.specs.Prelude.{◌≡◌, ℕ, ◌+◌, ◌<◌, ◌≤◌, ◌++◌, [], length, min};
ghost use Rattle.law_model.specs.Common.{Container};
ghost use Rattle.member_path.specs.path_delay.Carry.{carry_cells};
ghost use Rattle.thread_rings.specs.LineAlarms.{alarms_from, alarm_if, failed_after};

use crate::alarm_kinds::{Alarm, AlarmKind};
use arrayvec::ArrayVec;
use member_path::cell_numbers::CellSign;

/// The alarms of a burst so far, and what those of the next cell depend on.
#[derive(Drop)]
pub(crate) struct Raised {
    /// Whether the last cell was the sign of a failure.
    pub(crate) failed: bool,
    /// The place of the next cell. The count stops at 2^32 - 1.
    pub(crate) place: u32,
    /// The alarms.
    pub(crate) alarms: ArrayVec<Alarm, 16>,
}

/// What the cell of a carry says.
fn says(carry: Option<CellSign>, failed: bool) -> Option<AlarmKind>
    ensures { (m i : ℕ) (container : Container) →
        alarms_from m i failed (carry_cells carry container) ≡ alarm_if m i result }
{
    match carry {
        None => None,
        Some(CellSign::Good) => failed.then_some(AlarmKind::Returns),
        Some(CellSign::Fail) => (!failed).then_some(AlarmKind::Fails),
        Some(CellSign::End) => Some(AlarmKind::Ends),
    }
}

/// Whether the last cell is the sign of a failure, after that of a carry.
fn fails_after(carry: Option<CellSign>, failed: bool) -> bool
    ensures { (container : Container) → result ≡ failed_after failed (carry_cells carry container) }
{
    match carry {
        None => failed,
        Some(CellSign::Fail) => true,
        Some(CellSign::Good) => false,
        Some(CellSign::End) => false,
    }
}

/// The place of the next cell, after that of a carry.
fn next_place(carry: Option<CellSign>, place: u32) -> u32
    ensures { (container : Container) →
        result ≡ min (place + length (carry_cells carry container)) 4294967295 }
{
    match carry {
        None => place,
        Some(_) => place.saturating_add(1),
    }
}

impl Raised {
    ghost use Rattle.std.specs.Prelude.{◌≡◌, ◌+◌, ◌<◌, ◌≤◌, ◌++◌, [], length, min, false};
    ghost use Rattle.law_model.specs.Common.{Container};
    ghost use Rattle.member_path.specs.path_delay.Carry.{carry_cells};
    ghost use Rattle.thread_rings.specs.LineAlarms.{alarms_from, failed_after};

    /// Nothing was sent.
    pub(crate) fn new() -> Raised
        ensures failed { result.failed ≡ false }
        ensures place { result.place ≡ 0 }
        ensures alarms { result.alarms.items ≡ [] }
    {
        Raised {
            failed: false,
            place: 0,
            alarms: ArrayVec::new(),
        }
    }

    /// Takes note of the cell of a carry, if it gave one.
    pub(crate) fn note(&mut self, line: u8, carry: Option<CellSign>)
        requires { length self.old.alarms.items < 16 }
        ensures failed { (container : Container) →
            self.new.failed ≡ failed_after self.old.failed (carry_cells carry container) }
        ensures place { (container : Container) → self.new.place
            ≡ min (self.old.place + length (carry_cells carry container)) 4294967295 }
        ensures alarms { (container : Container) → self.new.alarms.items ≡ self.old.alarms.items
            ++ alarms_from line self.old.place self.old.failed (carry_cells carry container) }
        ensures most { length self.new.alarms.items ≤ length self.old.alarms.items + 1 }
    {
        if let Some(kind) = says(carry, self.failed) {
            self.alarms.push(Alarm {
                line,
                place: self.place,
                kind,
            });
        }
        self.failed = fails_after(carry, self.failed);
        self.place = next_place(carry, self.place);
    }
}
