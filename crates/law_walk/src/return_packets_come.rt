//! The return packets of a walk, and where they are on their way to the source.

ghost use Rattle.std.specs.Prelude.{◌≡◌, ℕ, ◌+◌, ◌*◌, ◌/◌, ◌%◌, ◌<◌, ◌≤◌, ◌==◌, ◌&&◌, nat_le, nat_lt, List, [], ◌∷◌};
ghost use Rattle.std.specs.Prelude.{if◌then◌else◌};
ghost use Rattle.std.specs.Prelude.{◌++◌};
ghost use Rattle.law_model.specs.Common.{Leg, scenario_by, return_cell, told_in, return_at, LineCounts};
ghost use Rattle.law_model.specs.Common.{Counts, used_in};
ghost use Rattle.law_model.specs.session.Scenario.{packets_in};
ghost use Rattle.law_line.specs.StableRows.{IsLonger, AreDecidedAt};
ghost use Rattle.law_terminal.specs.Course.{packet_by};
ghost use Rattle.law_walk.specs.Walk.{session_of, told_first, CanWalk, IsWalked, popped_cells};
ghost use Rattle.law_walk.specs.WalkRings.{all_lines, said_packet, back_cell, return_ring, inbox};

/// The return path. What the sink says by the cells that were popped is what it says by all cells, and tells
/// the source the return cells of the session; and one row, one return packet or one decision step changes
/// the rings by just that.
pub fn return_law()
    ensures longer { (leg : Leg) (lines : List LineCounts) →
        IsLonger (popped_cells leg lines) (all_lines leg) }
    ensures decided { (leg : Leg) (t : ℕ) → CanWalk leg → t < leg.config.ticks →
        AreDecidedAt (all_lines leg) t }
    ensures said { (leg : Leg) (s : Counts) (k : ℕ) → CanWalk leg → IsWalked leg s →
        16 * k + 23 < s.rows →
        return_at leg.config.options (popped_cells leg s.lines) k ≡ said_packet leg k }
    ensures packet { (leg : Leg) (k : ℕ) → CanWalk leg →
        16 * k + 23 < leg.config.ticks →
        said_packet leg k ≡ packet_by (scenario_by leg) (session_of leg) k }
    ensures told { (leg : Leg) (k : ℕ) → CanWalk leg → 16 * k + 23 < leg.config.ticks →
        told_in (back_cell leg k)
        ≡ return_cell (scenario_by leg) (session_of leg) k }
    ensures next { (leg : Leg) (k : ℕ) → CanWalk leg → 16 * k + 23 < leg.config.ticks →
        told_first leg (k + 1)
        ≡ told_first leg k ++ told_in (back_cell leg k) ∷ [] }
    ensures ends { (t : ℕ) → packets_in (t + 1)
        ≡ packets_in t + (if nat_lt 22 t && t % 16 == 7 then 1 else 0) }
    ensures steps { (lag t : ℕ) → used_in lag (t + 1)
        ≡ used_in lag t + (if t % 16 == 8 && nat_le lag (t / 16) then 1 else 0) }
    ensures says { (leg : Leg) (s : Counts) (rows : ℕ) → s.backs ≤ packets_in s.rows →
        packets_in rows ≡ packets_in s.rows + 1 → return_ring leg (record s { rows = rows })
        ≡ return_ring leg s ++ said_packet leg (packets_in s.rows) ∷ [] }
    ensures goes { (leg : Leg) (s : Counts) → s.backs < packets_in s.rows →
        return_ring leg s
        ≡ said_packet leg s.backs ∷ return_ring leg (record s { backs = s.backs + 1 }) }
    ensures comes { (leg : Leg) (s : Counts) → used_in leg.config.lag s.ticks ≤ s.backs →
        inbox leg (record s { backs = s.backs + 1 })
        ≡ inbox leg s ++ back_cell leg s.backs ∷ [] }
    ensures taken { (leg : Leg) (s : Counts) (ticks : ℕ) →
        used_in leg.config.lag s.ticks < s.backs →
        used_in leg.config.lag ticks ≡ used_in leg.config.lag s.ticks + 1 → inbox leg s
        ≡ back_cell leg (used_in leg.config.lag s.ticks)
        ∷ inbox leg (record s { ticks = ticks }) }
{}
