//! A walk goes by the clock: what its rounds have made, landed and taken, and when it ends.

ghost use Rattle.std.specs.Prelude.{◌≡◌, ◌↔◌, ℕ, ◌+◌, ◌-◌, ◌<◌, min, [], ◌∷◌, slice_get, Some};
ghost use Rattle.law_model.specs.Common.{Plan, frame_dues, command_dues, begin, drain, bound, Leg, greatest};
ghost use Rattle.law_model.specs.Common.{least, IsSound};
ghost use Rattle.law_progress.specs.WorkedPlans.{one_line};
ghost use Rattle.law_walk.specs.Common.{walk_plan};
ghost use Rattle.law_service.specs.ClockedWalk.{after_rounds, KeepsTime, HasNoSlip, LagsEnough, two_lines, told_after};
ghost use Rattle.law_service.specs.Twins.{whole_walk};

/// A walk that keeps time goes by the clock, from its start: each round makes one tick while any is left, and with
/// it lands just the items that are due by then and weren't; and once as many rounds as the greatest delay are
/// over, it takes one row, until all are taken. So a drain has as many rounds as there are ticks, and as many
/// more as the greatest delay. A leg keeps time if no window slips its line, and its lag is one tick at least
/// above what it must be.
pub fn clock_law()
    ensures ticks { (slow fast count : ℕ) (plan : Plan) → KeepsTime slow fast plan →
        (after_rounds count plan).ticks ≡ min count plan.ticks }
    ensures frames { (slow fast count : ℕ) (plan : Plan) → KeepsTime slow fast plan → (i due : ℕ) →
        slice_get (frame_dues plan.items) i ≡ Some due →
        (i < (after_rounds count plan).frames) ↔ (due < min count (plan.ticks + 1)) }
    ensures commands { (slow fast count : ℕ) (plan : Plan) → KeepsTime slow fast plan →
        (i due : ℕ) →
        slice_get (command_dues plan.items) i ≡ Some due →
        (i < (after_rounds count plan).commands) ↔ (due < min count (plan.ticks + 1)) }
    ensures rows { (slow fast count : ℕ) (plan : Plan) → KeepsTime slow fast plan →
        (after_rounds count plan).rows ≡ min (count - slow) plan.ticks }
    ensures row { (slow fast t : ℕ) (plan : Plan) → KeepsTime slow fast plan → t < plan.ticks →
        ((after_rounds (t + slow) plan).rows ≡ t) × ((after_rounds (t + slow + 1) plan).rows ≡ t + 1) }
    ensures ends { (slow fast : ℕ) (plan : Plan) → KeepsTime slow fast plan → 0 < plan.ticks →
        drain (bound plan) plan (begin plan) ≡ after_rounds (plan.ticks + slow) plan }
    ensures goes_on { (slow fast count : ℕ) (plan : Plan) → KeepsTime slow fast plan →
        0 < plan.ticks →
        count < plan.ticks + slow → (after_rounds count plan).rows < plan.ticks }
    ensures legs { (leg : Leg) → IsSound leg → HasNoSlip leg → LagsEnough leg →
        KeepsTime (greatest leg.config.delays) (least leg.config.delays) (walk_plan leg) }
    ensures whole { (leg : Leg) → IsSound leg → HasNoSlip leg → LagsEnough leg → whole_walk leg
        ≡ after_rounds (leg.config.ticks + greatest leg.config.delays) (walk_plan leg) }
{}

/// Worked walks by the clock, computed. Of two lines the slower one has a delay of two ticks: 41 ticks end with
/// the 43rd round. Where 16 times the lag is just 16 more than the greatest delay, ticks stall once for each return
/// packet that a decision step takes: 41 ticks of a line without delay, with a lag of 1, take 43 rounds, and not 41.
pub fn worked_clock_law()
    ensures keeps { KeepsTime 2 0 two_lines }
    ensures rounds { told_after two_lines (2 ∷ 3 ∷ 5 ∷ 6 ∷ 8 ∷ 42 ∷ 43 ∷ [])
        ≡ (2, 0, 0) ∷ (3, 0, 1) ∷ (5, 0, 3) ∷ (6, 1, 4) ∷ (8, 2, 6) ∷ (41, 2, 40) ∷ (41, 2, 41) ∷ [] }
    ensures stalls { told_after (one_line 1 []) (24 ∷ 25 ∷ 40 ∷ 41 ∷ 42 ∷ 43 ∷ [])
        ≡ (24, 0, 24) ∷ (24, 0, 24) ∷ (39, 0, 39) ∷ (40, 0, 40) ∷ (40, 0, 40) ∷ (41, 0, 41) ∷ [] }
{}
