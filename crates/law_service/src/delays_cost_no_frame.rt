//! Delays of lines and the room of rings cost time and no frame: a walk's report and its fates are the same with
//! others.

ghost use Rattle.std.specs.Prelude.{◌≡◌, ℕ, List};
ghost use Rattle.law_model.specs.Common.{Leg, IsSound};
ghost use Rattle.law_walk.specs.Common.{report_of};
ghost use Rattle.fate_engine.specs.Common.{fates_text};
ghost use Rattle.law_service.specs.Twins.{with_delays, whole_walk};

/// Delays and rings cost time and no frame: of legs that differ in the delays of their lines and in the room of
/// their rings alone, a walk without event lines reports the same, and tells the same fates.
pub fn twins_law()
    ensures report { (leg : Leg) (delays : List ℕ) (ring : ℕ) → IsSound leg →
        IsSound (with_delays leg delays ring) →
        report_of (with_delays leg delays ring) (whole_walk (with_delays leg delays ring))
        ≡ report_of leg (whole_walk leg) }
    ensures fates { (leg : Leg) (delays : List ℕ) (ring : ℕ) → IsSound leg →
        IsSound (with_delays leg delays ring) →
        fates_text (with_delays leg delays ring) (whole_walk (with_delays leg delays ring))
        ≡ fates_text leg (whole_walk leg) }
{}
