//! What the packets of a way tell of the other way, and what is read of them.

ghost use Rattle.std.specs.Prelude.{◌≡◌, ℕ, ◌+◌, ◌<◌, true, false, List, Option, Some, None, option_map, ◌*◌};
ghost use Rattle.law_model.specs.Common.{Scenario, scenario_by, scenario_of, is_heard, Told, told_by, untold};
ghost use Rattle.law_model.specs.Common.{telling_at, return_packet, return_cell, session_cells, leader, packets_of};
ghost use Rattle.law_model.specs.Common.{Counts, read_packets, return_at};
ghost use Rattle.law_model.specs.declared.script_types.Script.{Script};
ghost use Rattle.law_model.specs.session.Scenario.{packets_in};
ghost use Rattle.law_walk.specs.Common.{session_of, popped_cells, IsWalked};
ghost use Rattle.law_pair.specs.Pair.{IsWay, way_of};

/// What the packets of a way tell. The first ones, as many as the lag, tell nothing, and each later one
/// the return packet of the other way whose number is less by the lag. That is read of the packet of the
/// least line that has one, and nothing is read where no line has one: so the return cells of a way are
/// just what is read in the packets of the other way.
pub fn heard_law()
    ensures early { (script other : Script) (k : ℕ) → k < script.config.lag →
        telling_at (scenario_by (way_of script other)) k ≡ untold }
    ensures tells { (script other : Script) (k : ℕ) → k < packets_in other.config.ticks →
        telling_at (scenario_by (way_of script other)) (k + script.config.lag)
        ≡ return_packet (scenario_by (way_of other script))
        (session_cells (scenario_by (way_of other script))) k }
    ensures heard { (script other : Script) (cells : List (Option Told)) (k : ℕ) →
        k < packets_in other.config.ticks →
        is_heard (scenario_of script) (k + script.config.lag) ≡ true →
        option_map told_by
        (leader (packets_of (scenario_by (way_of script other)) cells (k + script.config.lag)))
        ≡ Some (telling_at (scenario_by (way_of script other)) (k + script.config.lag)) }
    ensures silent { (scenario : Scenario) (cells : List (Option Told)) (k : ℕ) →
        is_heard scenario k ≡ false → leader (packets_of scenario cells k) ≡ None }
    ensures cells { (script other : Script) (cells : List (Option Told)) (k : ℕ) →
        k < packets_in script.config.ticks →
        return_cell (scenario_by (way_of script other))
        (session_cells (scenario_by (way_of script other))) k
        ≡ option_map told_by
        (leader (packets_of (scenario_by (way_of other script)) cells (k + other.config.lag))) }
{}

/// Where the two ways of a pair meet, by the cells that were popped of each. What the sink of a way says
/// once the row is taken that ends a packet is what the packet of the other way tells whose number is
/// greater by the lag; and what is read in that packet, once it is ended, is the return cell of the session.
pub fn link_law()
    ensures says { (script other : Script) (s : Counts) (k : ℕ) → IsWay script →
        IsWalked (way_of script other) s → 16 * k + 23 < s.rows →
        told_by (return_at script.config.options (popped_cells (way_of script other) s.lines) k)
        ≡ telling_at (scenario_by (way_of other script)) (k + other.config.lag) }
    ensures reads { (script other : Script) (s : Counts) (k : ℕ) → IsWay other →
        IsWalked (way_of other script) s → k < packets_in script.config.ticks →
        16 * (k + other.config.lag) + 23 < s.rows →
        option_map told_by (leader
        (read_packets (popped_cells (way_of other script) s.lines) (k + other.config.lag)))
        ≡ return_cell (scenario_by (way_of script other)) (session_of (way_of script other)) k }
{}
