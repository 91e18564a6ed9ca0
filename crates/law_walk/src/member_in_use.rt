//! How soon a line that is added carries payload, and what a return packet answers.

ghost use Rattle.std.specs.Prelude.{◌≡◌, ◌↔◌, ℕ, Bool, Some};
ghost use Rattle.law_model.specs.Common.{Leg, scenario_by, told_at, Told, kept_of};
ghost use Rattle.law_session.specs.Feedback.{Takes, Acknowledges, TellsOf, SameLines, WasSaid};
ghost use Rattle.law_session.specs.LineInUse.{AddsUndamaged, AddsAmongSilent, known_by};
ghost use Rattle.law_walk.specs.Walk.{session_of, CanWalk};
ghost use Rattle.law_walk.specs.Promise.{InUseBy};

/// How soon a line that is added carries payload, where no return packet is lost and no further command
/// carried out in between: one packet less than tell all statuses, and the lag, later, where each line in ADD
/// is up and can be read meanwhile; and at most as long again later, where it is up and can be read and no
/// other line in ADD can be read.
pub fn member_law()
    ensures undamaged { (leg : Leg) (first line : ℕ) →
        AddsUndamaged (scenario_by leg) first line →
        InUseBy leg line first (known_by (scenario_by leg) first) }
    ensures others_silent { (leg : Leg) (first line : ℕ) →
        AddsAmongSilent (scenario_by leg) first line →
        InUseBy leg line first (known_by (scenario_by leg) (known_by (scenario_by leg) first)) }
{}

/// A return packet that a decision step takes answers the very change that is out, by its one bit exactly as
/// by the whole count of changes; then each line still has the SQ that it had in the packet that was read;
/// and each status acted on was said of that line, an OK by what it said last.
pub fn answer_law()
    ensures whole_count { (leg : Leg) (j k : ℕ) (told : Told) →
        Takes (scenario_by leg) (session_of leg) j k told →
        Acknowledges (scenario_by leg) (session_of leg) j told
        ↔ TellsOf (scenario_by leg) (session_of leg) j k }
    ensures same_lines { (leg : Leg) (j k : ℕ) (told : Told) →
        Takes (scenario_by leg) (session_of leg) j k told →
        TellsOf (scenario_by leg) (session_of leg) j k →
        SameLines (scenario_by leg) (session_of leg) j k }
    ensures statuses { (leg : Leg) (j sq : ℕ) (ok : Bool) → CanWalk leg →
        kept_of (told_at (scenario_by leg) (session_of leg) j) sq ≡ Some ok →
        WasSaid (scenario_by leg) (session_of leg) j sq ok }
{}
