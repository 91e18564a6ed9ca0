//! The laws of what a failure costs: how many rows, whatever its length, and when the line is in use again.
//! There is no code here. Begin at `cost_law`; `exact_law` is what it stands on, and `closed_law` has the rows
//! in numbers alone. `settled_law` says when no change is made, `met_law` shows a leg that meets what is asked,
//! and `worked_law` legs in which what failures cost ends as late as it can.

ghost use Rattle.std.specs.Prelude.{◌≡◌, ◌↔◌, ℕ, ◌+◌, ◌-◌, ◌*◌, ◌<◌, ◌≤◌, min, true, false, Some, slice_get};
ghost use Rattle.std.specs.Prelude.{[], ◌∷◌};
ghost use Rattle.law_model.specs.Common.{Leg, IsSound, scenario_by, is_line_up, member_of, table_of, is_whole_row};
ghost use Rattle.law_model.specs.declared.window_types.Window.{Window};
ghost use Rattle.law_model.specs.declared.lcas_states.Standing.TheVariants.{Add, Norm};
ghost use Rattle.law_session.specs.Feedback.{lines_of};
ghost use Rattle.law_session.specs.LineInUse.{IsInUse, known_by};
ghost use Rattle.law_walk.specs.Common.{session_of, whole_rows};
ghost use Rattle.law_service.specs.cost_of_failures.Cost.{windows_of, StaysClear, FailsBy, FailsOnce, IsSpared};
ghost use Rattle.law_service.specs.cost_of_failures.Cost.{IsSparedFor, SaysOf, round_rows, cost_end};
ghost use Rattle.law_service.specs.cost_of_failures.Cost.{FailTogether, first_hit};
ghost use Rattle.law_service.specs.cost_of_failures.Cost.{governing_table, table_at, HasSq, Spoils, IsSpoiled};
ghost use Rattle.law_service.specs.cost_of_failures.Cost.{spoiled_rows};
ghost use Rattle.law_service.specs.cost_of_failures.CostInNumbers.{WasUsed, WereUsed, WereClear, IsHit};
ghost use Rattle.law_service.specs.cost_of_failures.CostInNumbers.{AreTwoRuns};
ghost use Rattle.law_service.specs.cost_of_failures.Settled.{IsSettled, MakesNoChange};
ghost use Rattle.law_service.specs.cost_of_failures.Unnoticed.{without, IsUnnoticed};
ghost use Rattle.law_service.specs.cost_of_failures.WorkedCosts.{costly_leg, dearest_leg, parted_leg, used_in_rows};

/// Which rows before a horizon failures cost, if each line fails once at most, one line doesn't fail, and no
/// return packet is lost and no change made meanwhile: however long a line fails, none but those of a round of
/// statuses, of the lag and of the hold-off from its beginning on; and if it fails for a short time, none beyond
/// 39 rows after its end. So much it costs if lines fail together. A line that has an SQ and fails carries payload
/// again 23 ticks, a round of statuses, the lag and the restore after its end, and each other line that has one a
/// round, the lag and the restore after the beginning.
pub fn cost_law()
    ensures rows { (leg : Leg) (from horizon t : ℕ) → IsSound leg → FailsOnce leg from horizon →
        ((line : ℕ) (window : Window) → FailsBy (windows_of leg line) window from horizon →
        IsSpared leg window t) → from ≤ t → t < horizon →
        is_whole_row (scenario_by leg) (session_of leg) t ≡ true }
    ensures together { (leg : Leg) (begins ends horizon t : ℕ) → IsSound leg →
        FailTogether leg begins ends horizon → cost_end leg begins ends ≤ t → t < horizon →
        is_whole_row (scenario_by leg) (session_of leg) t ≡ true }
    ensures bill { (leg : Leg) (begins ends horizon count : ℕ) → IsSound leg →
        FailTogether leg begins ends horizon → begins + count ≤ horizon →
        spoiled_rows leg begins count
        ≤ min (ends + 39 - begins) (round_rows leg leg.config.options.holdoff) }
    ensures back { (leg : Leg) (from horizon line t : ℕ) (window : Window) → IsSound leg →
        FailsOnce leg from horizon → FailsBy (windows_of leg line) window from horizon →
        HasSq (table_at leg from) line →
        window.end + 23 + round_rows leg leg.config.options.restore ≤ t → t < horizon →
        IsInUse (governing_table leg t) line }
    ensures others { (leg : Leg) (from horizon line t : ℕ) → IsSound leg →
        FailsOnce leg from horizon →
        StaysClear (windows_of leg line) from horizon →
        HasSq (table_at leg from) line →
        from + round_rows leg leg.config.options.restore ≤ t → t < horizon →
        IsInUse (governing_table leg t) line }
{}

/// The same exactly. A row isn't whole only if a line that carries payload in it fails and spoils it, and with
/// `sink stops` just if so, while a sink that goes on has more rows whole; a failure spoils no row once the
/// source was told of it; and a line carries payload just if it was up at the last packet that says a status of
/// its SQ and that was taken. So a failure that no such packet sees, or that is held, takes nothing of the
/// capacity: each table is the one of the session that has no such failures.
pub fn exact_law()
    ensures only { (leg : Leg) (from horizon t : ℕ) → IsSound leg → FailsOnce leg from horizon →
        24 ≤ t → from ≤ t → t < horizon →
        is_whole_row (scenario_by leg) (session_of leg) t ≡ false → IsSpoiled leg from horizon t }
    ensures spoiled { (leg : Leg) (from horizon t : ℕ) → IsSound leg →
        leg.config.options.infers ≡ false → FailsOnce leg from horizon → 24 ≤ t → from ≤ t → t < horizon →
        (is_whole_row (scenario_by leg) (session_of leg) t ≡ false) ↔ IsSpoiled leg from horizon t }
    ensures told { (leg : Leg) (from horizon t : ℕ) → IsSound leg → FailsOnce leg from horizon →
        ((line sq : ℕ) (window : Window) → FailsBy (windows_of leg line) window from horizon →
        slice_get (lines_of (table_at leg from).order) sq ≡ Some line →
        IsSparedFor leg sq window t) → from ≤ t → t < horizon →
        is_whole_row (scenario_by leg) (session_of leg) t ≡ true }
    ensures stands { (leg : Leg) (from horizon sq line j k : ℕ) → IsSound leg →
        FailsOnce leg from horizon → slice_get (lines_of (table_at leg from).order) sq ≡ Some line →
        (slice_get (table_at leg from).order sq ≡ Some (member_of line Add) →
        known_by (scenario_by leg) (first_hit from) ≤ j) →
        first_hit from ≤ k → SaysOf leg sq k → k + leg.config.lag ≤ j →
        j < k + leg.config.options.statuses + leg.config.lag → 16 * j + 24 < horizon →
        (slice_get (table_of (scenario_by leg) (session_of leg) j).order sq ≡ Some (member_of line Norm))
        ↔ (is_line_up (scenario_by leg) line k ≡ true) }
    ensures unnoticed { (leg : Leg) (from horizon sq line t : ℕ) → IsSound leg →
        FailsOnce leg from horizon → slice_get (lines_of (table_at leg from).order) sq ≡ Some line →
        ((k : ℕ) → first_hit from ≤ k → 16 * (k + leg.config.lag) + 24 < horizon → SaysOf leg sq k →
        is_line_up (scenario_by leg) line k ≡ true) → from + round_rows leg 0 ≤ t → t < horizon →
        slice_get (governing_table leg t).order sq ≡ Some (member_of line Norm) }
    ensures without { (leg : Leg) (from horizon : ℕ) → IsSound leg → IsSound (without leg from horizon) }
    ensures tables { (leg : Leg) (from horizon j : ℕ) → IsSound leg → FailsOnce leg from horizon →
        IsUnnoticed leg from horizon → 16 * j + 24 < horizon →
        table_of (scenario_by leg) (session_of leg) j
        ≡ table_of (scenario_by (without leg from horizon)) (session_of (without leg from horizon)) j }
{}

/// The rows in numbers. A row isn't whole only if the failure of a line that has an SQ spoils it, and it is
/// before the one row at which the source is told; and with `sink stops` just if so, if each line that has an
/// SQ and fails was in use before, with nothing else said of it. Then lines that fail together spoil the first
/// ones of the rows that they can spoil, and so two runs of rows at most; and two at most it is too if none of them was
/// in ADD or damaged shortly before, whether in use or not. And a line that was in use before, and is up at each packet
/// that says a status of its SQ, is in use all the time: nobody notices its failure.
pub fn closed_law()
    ensures only { (leg : Leg) (from horizon t : ℕ) → IsSound leg → FailsOnce leg from horizon →
        24 ≤ t → from ≤ t → t < horizon →
        is_whole_row (scenario_by leg) (session_of leg) t ≡ false → IsHit leg from horizon t }
    ensures rows { (leg : Leg) (from horizon t : ℕ) → IsSound leg →
        leg.config.options.infers ≡ false →
        FailsOnce leg from horizon → WereUsed leg from horizon → 24 ≤ t → from ≤ t → t < horizon →
        (is_whole_row (scenario_by leg) (session_of leg) t ≡ false) ↔ IsHit leg from horizon t }
    ensures first { (leg : Leg) (begins ends horizon line t sooner : ℕ) (window : Window) →
        IsSound leg → leg.config.options.infers ≡ false → FailTogether leg begins ends horizon →
        WereUsed leg begins horizon →
        is_whole_row (scenario_by leg) (session_of leg) t ≡ false → t < horizon →
        FailsBy (windows_of leg line) window begins horizon → Spoils window sooner →
        24 ≤ sooner → begins ≤ sooner → sooner ≤ t →
        is_whole_row (scenario_by leg) (session_of leg) sooner ≡ false }
    ensures runs { (leg : Leg) (begins ends horizon : ℕ) → IsSound leg →
        leg.config.options.infers ≡ false → FailTogether leg begins ends horizon →
        WereUsed leg begins horizon → AreTwoRuns leg begins horizon }
    ensures runs_of_clear { (leg : Leg) (begins ends horizon : ℕ) → IsSound leg →
        leg.config.options.infers ≡ false → FailTogether leg begins ends horizon →
        WereClear leg begins horizon → AreTwoRuns leg begins horizon }
    ensures used { (leg : Leg) (from horizon sq line t : ℕ) → IsSound leg →
        FailsOnce leg from horizon → slice_get (lines_of (table_at leg from).order) sq ≡ Some line →
        WasUsed leg from sq line →
        ((k : ℕ) → first_hit from ≤ k → 16 * (k + leg.config.lag) + 24 < horizon → SaysOf leg sq k →
        is_line_up (scenario_by leg) line k ≡ true) → 24 ≤ t → from ≤ t → t < horizon →
        slice_get (governing_table leg t).order sq ≡ Some (member_of line Norm) }
{}

/// No table counts a change as long as no command is carried out and no ADD lines are exchanged; and so it
/// is if no command waits or lands and no line is in ADD.
pub fn settled_law()
    ensures still { (leg : Leg) (from horizon k : ℕ) →
        ((j : ℕ) → first_hit from ≤ j → 16 * j + 24 < horizon → MakesNoChange leg j) →
        first_hit from ≤ k → 16 * k + 24 < horizon → (table_of (scenario_by leg) (session_of leg) k).count
        ≡ (table_at leg from).count }
    ensures settled { (leg : Leg) (from horizon k : ℕ) → IsSettled leg from horizon →
        first_hit from ≤ k → 16 * k + 24 < horizon → (table_of (scenario_by leg) (session_of leg) k).count
        ≡ (table_at leg from).count }
{}

/// A leg that meets what is asked above: a line fails for 489 containers, and the other one doesn't. And one of which
/// another line fails behind the horizon, which counts as a line that stays clear.
pub fn met_law()
    ensures sound { IsSound costly_leg }
    ensures settled { IsSettled costly_leg 536 1400 }
    ensures together { FailTogether costly_leg 536 1025 1400 }
    ensures has { HasSq (table_at costly_leg 536) 1 }
    ensures were { WereUsed costly_leg 536 1400 }
    ensures parted_sound { IsSound parted_leg }
    ensures parted_settled { IsSettled parted_leg 1000 4000 }
    ensures parted_together { FailTogether parted_leg 1000 1024 4000 }
    ensures parted_were { WereUsed parted_leg 1000 4000 }
{}

/// That leg, computed: neither row can be sooner. Row 823 isn't whole, row 824 is, and the line doesn't carry
/// payload in row 1335 and does in row 1336. And so with timers: rows 488 and 823 aren't whole, and row 824 is. Of
/// the 336 from 488 to 823, 48 are those of the hold-off. The line carries payload again 391 rows after its end,
/// of which 80 are those of the restore.
pub fn worked_law()
    ensures rows { cost_end costly_leg 536 1025 ≡ 824 }
    ensures spoiled { whole_rows costly_leg (535 ∷ 536 ∷ 823 ∷ 824 ∷ [])
        ≡ true ∷ false ∷ false ∷ true ∷ [] }
    ensures used { used_in_rows costly_leg (823 ∷ 824 ∷ 1335 ∷ 1336 ∷ [])
        ≡ (0 ∷ 1 ∷ []) ∷ (0 ∷ []) ∷ (0 ∷ []) ∷ (0 ∷ 1 ∷ []) ∷ [] }
    ensures timed_rows { cost_end dearest_leg 488 945 ≡ 824 }
    ensures timed_spoiled { whole_rows dearest_leg (487 ∷ 488 ∷ 823 ∷ 824 ∷ [])
        ≡ true ∷ false ∷ false ∷ true ∷ [] }
    ensures timed_used { used_in_rows dearest_leg (823 ∷ 824 ∷ 1335 ∷ 1336 ∷ [])
        ≡ (0 ∷ 1 ∷ []) ∷ (0 ∷ []) ∷ (0 ∷ []) ∷ (0 ∷ 1 ∷ []) ∷ [] }
{}
