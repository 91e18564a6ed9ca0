//! A leg's walk in numbers: its plan, and each of its lines beside its cells.

ghost use Rattle.std.specs.Prelude.{◌≡◌, ℕ, ◌+◌, ◌<◌, ◌≤◌, nat_le, List, length, take, slice_get, Some, is_none};
ghost use Rattle.law_model.specs.Common.{Leg, verdict, IsSound, scenario_by, LineCounts};
ghost use Rattle.law_progress.specs.Progress.{IsPlan};
ghost use Rattle.law_terminal.specs.SessionLines.{HasLines};
ghost use Rattle.law_walk.specs.Walk.{walk_plan, CanWalk, counts_at, popped_on, path_on};
ghost use Rattle.law_walk.specs.WalkRings.{line_cells, cells_by};

/// A leg whose rings fit has a plan of its walk, whose lines are what the session sends on them.
pub fn plan_law()
    ensures lines { (leg : Leg) → CanWalk leg → HasLines (scenario_by leg) }
    ensures plan { (leg : Leg) → CanWalk leg → IsPlan (walk_plan leg) }
    ensures sound { (leg : Leg) → IsSound leg → CanWalk leg }
    ensures paths { (leg : Leg) → CanWalk leg →
        length (walk_plan leg).paths ≡ length leg.config.windows }
{}

/// A line of a leg's walk in numbers, beside its cells: the first cells of all that it gives are those
/// that some carries give, where these give as many; and where the sink has popped some, a row is open
/// exactly where the numbers that these cells decide don't reach it.
pub fn line_law()
    ensures path { (leg : Leg) (line : ℕ) → CanWalk leg →
        line < length leg.config.windows →
        slice_get (walk_plan leg).paths line ≡ Some (path_on leg line) }
    ensures first { (leg : Leg) (line carries popped : ℕ) →
        carries ≤ leg.config.ticks + (path_on leg line).delay + 1 →
        popped ≤ (path_on leg line).given carries →
        take popped (line_cells leg line) ≡ take popped (cells_by leg line carries) }
    ensures open { (leg : Leg) (lines : List LineCounts) (line t : ℕ) →
        t < leg.config.ticks → is_none (verdict (popped_on leg lines line) t)
        ≡ nat_le ((path_on leg line).decided (counts_at lines line).popped) t }
{}
