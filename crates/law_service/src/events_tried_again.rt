//! Events that are tried again and again take all rows, in whatever order, within a bound.

ghost use Rattle.std.specs.Prelude.{◌≡◌, ◌+◌, ◌*◌, ◌<◌, ◌≤◌, List, length, sum, All};
ghost use Rattle.law_model.specs.Common.{Plan, Counts, run, bound, Leg, IsSound};
ghost use Rattle.law_model.specs.declared.walk_events.Event.{Event};
ghost use Rattle.law_progress.specs.Progress.{IsPlan, IsReached, made};
ghost use Rattle.law_walk.specs.Common.{IsWalked, walk_plan};
ghost use Rattle.law_service.specs.RepeatedTurns.{TriesEach, in_turn, walked_plan, backwards, without_back, rows_after};

/// Whoever tries each event of a walk again and again takes all rows, in whatever order and with whatever more
/// is tried. While rows are left, each turn that tries every event adds to the counts, whose sum has a bound:
/// so as many turns as the bound are enough, from whatever the events so far have led to. It is told by the
/// lines, ticks, delays and items of a script.
pub fn turns_law()
    ensures rises { (plan : Plan) (s : Counts) (turn : List Event) → IsPlan plan →
        IsReached plan s →
        s.rows < plan.ticks → TriesEach plan turn → made s < made (run plan s turn) }
    ensures enough { (plan : Plan) (s : Counts) (turns : List (List Event)) → IsPlan plan →
        IsReached plan s →
        All (TriesEach plan) turns → bound plan ≤ made s + length turns →
        (run plan s (in_turn turns)).rows ≡ plan.ticks }
    ensures legs { (leg : Leg) (s : Counts) (turns : List (List Event)) → IsSound leg →
        IsWalked leg s →
        All (TriesEach (walk_plan leg)) turns → bound (walk_plan leg) ≤ length turns →
        (run (walk_plan leg) s (in_turn turns)).rows ≡ leg.config.ticks }
    ensures told { (leg : Leg) → IsSound leg → bound (walk_plan leg)
        ≡ (2 * length leg.config.windows + 3) * leg.config.ticks + sum leg.config.delays
        + 2 * length leg.config.windows + length leg.items }
{}

/// Turns, computed: of one line, 41 ticks and two items. Tried in the order of least use, all rows are taken by
/// turn 46, and not by turn 45; and with no return packet tried, after 209 turns, the bound, 24 rows are taken.
pub fn worked_turns_law()
    ensures tries { TriesEach walked_plan backwards }
    ensures bound { bound walked_plan ≡ 209 }
    ensures most { rows_after 45 backwards ≡ 40 }
    ensures all { rows_after 46 backwards ≡ 41 }
    ensures stuck { rows_after 209 without_back ≡ 24 }
{}
