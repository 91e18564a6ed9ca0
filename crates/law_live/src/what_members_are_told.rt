//! What the lines of members tell.

ghost use Rattle.std.specs.Prelude.{◌≡◌, ℕ, suc, ◌+◌, ◌*◌, ◌<◌, List, All, codes};
ghost use Rattle.law_model.specs.Common.{Leg, steps_in};
ghost use Rattle.law_live.specs.Common.{Differ, MemberTold, Saying, answers, code_after, code_at, codes_of};
ghost use Rattle.law_live.specs.Common.{last_code, live_counts, members_in, members_told, told_among, told_by};

/// Of any leg: a decision step is told with the ticks made by then. Of two lines on one member that follow each other
/// the codes differ, and the first one isn't `idle`. What the last one says, and `idle` where there is none, is how the
/// line stands: behind each decision step that was made, and behind the last. A step tells of each line whose control
/// word in its packets, EOS taken as NORM, isn't the one in the step before; so the lines that a trace has of the steps
/// say which these are.
pub fn member_law()
    ensures times { (leg : Leg) (j : ℕ) →
        All (λ (told : MemberTold). told.ticks ≡ 16 * j + 9) (members_in leg j) }
    ensures trace { (leg : Leg) (j : ℕ) → members_in leg j
        ≡ told_among (16 * j + 9) (code_after leg j) (code_after leg (suc j)) leg.config.lines }
    ensures differ { (leg : Leg) (said : List Saying) (m : ℕ) →
        Differ (codes "idle") (codes_of m (members_told leg (answers leg said))) }
    ensures step { (leg : Leg) (said : List Saying) (m j : ℕ) → m < leg.config.lines →
        16 * j + 8 < (live_counts leg said).ticks →
        (let told = members_told leg (answers leg said) in
        last_code (codes "idle") (codes_of m (told_by (16 * j + 9) told)) ≡ code_at leg (16 * j + 9) m) }
    ensures last { (leg : Leg) (said : List Saying) (m : ℕ) → m < leg.config.lines →
        last_code (codes "idle") (codes_of m (members_told leg (answers leg said)))
        ≡ code_at leg (live_counts leg said).ticks m }
{}
