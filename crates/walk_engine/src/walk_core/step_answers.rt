//! What a step of a walk answers, and what is noted of a decision step.
ghost use Rattle.std.specs.Prelude.{◌≡◌, ◌+◌, ◌≤◌};
ghost use Rattle.std.specs.Bool.{OnTrue, OnFalse};
ghost use Rattle.law_model.specs.Common.{steps_in};

use law_model::{Refusal, StallCause};
use member_cells::BackCell;

/// What a step of a walk gave.
#[derive(Clone, Copy, Debug, PartialEq, Eq)]
pub enum Moved {
    /// It moved.
    Yes,
    /// It moved nothing, or nothing but cells that a Take popped.
    Stalled(StallCause),
    /// An item has landed and is refused.
    Refused(Refusal),
}

/// A decision step of the source.
#[derive(Clone, Copy, Debug, PartialEq, Eq)]
pub struct StepNote {
    /// The number of the step, and of the control packet that is sent from it on.
    pub packet: u32,
    /// The return cell that it took.
    pub back: Option<BackCell>,
}

/// Whether a decision step was made since a number of ticks, after which one more was made at most.
pub fn is_step(before: u32, now: u32) -> bool
    requires least { before ≤ now }
    requires most { now ≤ before + 1 }
    ensures yes { OnTrue result (steps_in now ≡ steps_in before + 1) }
    ensures no { OnFalse result (steps_in now ≡ steps_in before) }
{
    now != before && now % 16 == 9
}
