//! Which containers arrive good, and which packets can be read.

ghost use Rattle.std.specs.Prelude.{◌≡◌, ◌↔◌, ◌<◌, ◌≤◌, ◌+◌, ◌-◌, ◌*◌, ◌/◌, ℕ, true, length};
ghost use Rattle.law_model.specs.Common.{is_good, is_readable, Scenario, is_read, is_heard};
ghost use Rattle.law_model.specs.declared.window_types.Carried.{Carried};
ghost use Rattle.law_session.specs.ReturnedCells.{AreWhole};

/// What of a line arrives whole. A container is good, and a packet can be read, exactly where each container
/// on the way to it is whole; a packet is heard where some line has it.
pub fn readable_law()
    ensures good { (carries : ℕ → Carried) (t : ℕ) →
        (is_good carries t ≡ true) ↔ ((2 ≤ t) × AreWhole carries (16 * ((t - 2) / 16)) (t + 1)) }
    ensures readable { (carries : ℕ → Carried) (k : ℕ) →
        (is_readable carries k ≡ true) ↔ AreWhole carries (16 * k) (16 * k + 24) }
    ensures heard { (scenario : Scenario) (k : ℕ) → (is_heard scenario k ≡ true) ↔
        ((line : ℕ) × (line < length scenario.windows) × (is_read scenario line k ≡ true)) }
{}
