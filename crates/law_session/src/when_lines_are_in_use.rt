//! How soon a line that is added carries payload.

ghost use Rattle.std.specs.Prelude.{ℕ};
ghost use Rattle.law_model.specs.Common.{Scenario};
ghost use Rattle.law_session.specs.LineInUse.{IsUsedBy, AddsUndamaged, AddsAmongSilent, known_by};

/// A line that is added is in use one packet less than tell all statuses, and the lag, later where each line in
/// ADD is up and can be read and no return packet is lost meanwhile, no further command is carried out before,
/// and the session is as long. Where it is up and can be read and no other line in ADD can be read, it is in use
/// at most as long again later: a line that is seen isn't held up by one that isn't.
pub fn use_law()
    ensures undamaged { (scenario : Scenario) (first line : ℕ) → AddsUndamaged scenario first line →
        IsUsedBy scenario line first (known_by scenario first) }
    ensures others_silent { (scenario : Scenario) (first line : ℕ) →
        AddsAmongSilent scenario first line →
        IsUsedBy scenario line first (known_by scenario (known_by scenario first)) }
{}
