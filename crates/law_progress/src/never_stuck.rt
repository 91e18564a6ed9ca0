//! A walk in numbers is never stuck, and a drain ends.

ghost use Rattle.std.specs.Prelude.{◌≡◌, ◌<◌, ◌≤◌, List, Some};
ghost use Rattle.law_model.specs.Common.{Plan, Counts, in_inbox, step, drain, bound, walked};
ghost use Rattle.law_model.specs.declared.script_types.EventLine.{EventLine};
ghost use Rattle.law_model.specs.declared.walk_events.Event.{Event};
ghost use Rattle.law_model.specs.declared.walk_events.StallCause.{StallCause};
ghost use Rattle.law_progress.specs.Progress.{IsPlan, Fits, IsReached, ChangesNothing, SomeProgress};

/// Where delays, slips and lag fit the rings, and after any list of events: the counts are within their
/// bounds; the inbox holds no more return packets than the lag; where rows are left, some event moves, or a
/// Take pops a cell; and rounds end with all rows taken, within a bound. A stalled event changes nothing, but
/// that a Take keeps the cells which it popped. What event lines and drains lead to, a list of events leads
/// to.
pub fn progress_law()
    ensures within { (plan : Plan) (s : Counts) → IsPlan plan → IsReached plan s → Fits plan s }
    ensures inbox { (plan : Plan) (s : Counts) → IsPlan plan → IsReached plan s →
        in_inbox plan s ≤ plan.lag }
    ensures moves { (plan : Plan) (s : Counts) → IsPlan plan → IsReached plan s →
        s.rows < plan.ticks → SomeProgress plan s }
    ensures ends { (plan : Plan) (s : Counts) → IsPlan plan → IsReached plan s →
        (drain (bound plan) plan s).rows ≡ plan.ticks }
    ensures stalls { (plan : Plan) (s : Counts) (event : Event) (cause : StallCause) →
        (step plan s event).cause ≡ Some cause → ChangesNothing plan s event }
    ensures lines { (plan : Plan) (lines : List EventLine) → IsReached plan (walked plan lines) }
{}
