//! What the rings of a line hold by its numbers, and for which line a row waits.

ghost use Rattle.std.specs.Prelude.{◌≡◌, ◌↔◌, ℕ, ◌+◌, ◌-◌, ◌<◌, ◌≤◌, min, List, [], ◌∷◌, ◌++◌, length, take, Some};
ghost use Rattle.std.specs.Prelude.{None};
ghost use Rattle.law_model.specs.Common.{Cell, Leg, cells, scenario_by, carried_by, first_open, LineCounts};
ghost use Rattle.law_model.specs.Common.{Counts, pop_lines};
ghost use Rattle.law_progress.specs.Progress.{LineFits};
ghost use Rattle.law_walk.specs.Walk.{walk_plan, CanWalk, IsWalked, counts_at, popped_cells, path_on};
ghost use Rattle.law_walk.specs.WalkRings.{delay_on, line_cells, AreDecidedBefore, sent_at, taken_by};
ghost use Rattle.law_walk.specs.WalkRings.{cells_by, send_by};
ghost use Rattle.law_walk.specs.WalkRings.{receive_by};

/// The rings of a line by its numbers: after any list of events these are within their bounds; and one tick,
/// one carry or one cell that is popped changes the rings by just that.
pub fn ring_law()
    ensures lines { (leg : Leg) (s : Counts) → CanWalk leg → IsWalked leg s →
        length s.lines ≡ length leg.config.windows }
    ensures bounds { (leg : Leg) (s : Counts) (line : ℕ) → CanWalk leg →
        IsWalked leg s → line < length leg.config.windows →
        LineFits leg.config.ticks leg.config.ring s.ticks s.rows (path_on leg line)
        (counts_at s.lines line) }
    ensures taken { (leg : Leg) (line x : ℕ) →
        cells (carried_by (scenario_by leg) line) (delay_on leg line) leg.config.ticks
        (taken_by leg line x) x ≡ cells_by leg line x }
    ensures sends { (leg : Leg) (line n x : ℕ) → n ≤ leg.config.ticks →
        length (send_by leg line n x) ≡ n - min x leg.config.ticks }
    ensures receives { (leg : Leg) (line x y : ℕ) →
        length (receive_by leg line x y) ≡ (path_on leg line).given x - y }
    ensures made { (leg : Leg) (line n x : ℕ) → n < leg.config.ticks →
        min x leg.config.ticks ≤ n → send_by leg line (n + 1) x
        ≡ send_by leg line n x ++ sent_at leg line n ∷ [] }
    ensures next { (leg : Leg) (line n x : ℕ) → n ≤ leg.config.ticks → x < n →
        send_by leg line n x ≡ sent_at leg line x ∷ send_by leg line n (x + 1) }
    ensures takes { (leg : Leg) (line x : ℕ) → x < leg.config.ticks →
        taken_by leg line (x + 1) ≡ taken_by leg line x ++ sent_at leg line x ∷ [] }
    ensures gives { (leg : Leg) (line x y : ℕ) (out : List Cell) →
        y ≤ (path_on leg line).given x →
        cells_by leg line (x + 1) ≡ cells_by leg line x ++ out →
        receive_by leg line (x + 1) y ≡ receive_by leg line x y ++ out }
    ensures pops { (leg : Leg) (line x y : ℕ) (cell : Cell) (rest : List Cell) →
        receive_by leg line x y ≡ cell ∷ rest → receive_by leg line x (y + 1) ≡ rest }
    ensures popped { (leg : Leg) (line x y : ℕ) (cell : Cell) (rest : List Cell) →
        x ≤ leg.config.ticks + delay_on leg line + 1 →
        receive_by leg line x y ≡ cell ∷ rest →
        take (y + 1) (line_cells leg line) ≡ take y (line_cells leg line) ++ cell ∷ [] }
{}

/// For which line the next row waits: the first whose cells don't decide it; and a Take that pops cells line
/// by line stops there.
pub fn take_law()
    ensures open { (leg : Leg) (lines : List LineCounts) (m t : ℕ) → CanWalk leg →
        length lines ≡ length leg.config.windows → m < length lines → t < leg.config.ticks →
        AreDecidedBefore leg lines m t → (first_open (popped_cells leg lines) t ≡ Some m)
        ↔ ((path_on leg m).decided (counts_at lines m).popped ≤ t) }
    ensures all { (leg : Leg) (lines : List LineCounts) (t : ℕ) → CanWalk leg →
        length lines ≡ length leg.config.windows → t < leg.config.ticks →
        AreDecidedBefore leg lines (length lines) t →
        first_open (popped_cells leg lines) t ≡ None }
    ensures waiting { (leg : Leg) (lines : List LineCounts) (t : ℕ) → CanWalk leg →
        length lines ≡ length leg.config.windows → t < leg.config.ticks →
        first_open (popped_cells leg (pop_lines t 0 (walk_plan leg).paths lines).lines) t
        ≡ (pop_lines t 0 (walk_plan leg).paths lines).waiting }
{}
