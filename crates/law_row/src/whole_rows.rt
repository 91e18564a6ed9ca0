//! Which lines carry payload, and which rows the sink finds whole, with the octets that they give.

ghost use Rattle.std.specs.Prelude.{◌≡◌, ℕ, ◌*◌, ◌<◌, ◌≤◌, Bool, true, false, List, length, map, Option, Some, None};
ghost use Rattle.std.specs.Prelude.{if◌then◌else◌};
ghost use Rattle.std.specs.List.{list_all, range_with_len};
ghost use Rattle.law_model.specs.Common.{Cell, Container, Scenario, Told, active, table_of, active_of, row_at};
ghost use Rattle.law_model.specs.Common.{carried_row, packets_from, is_whole_row, payload_of, carriers_at, most_lines};
ghost use Rattle.law_model.specs.Common.{known_lines, cells_before, session_cells};
ghost use Rattle.law_row.specs.Received.{HasPackets, TellsRow, row_octets, stopping, AreDealt, IsDealtRow};
ghost use Rattle.law_row.specs.ComputedRows.{sent};

/// The sink is never misled by going on with what silent lines said last. In a session it knows which lines
/// carry payload exactly where the definition of a session says that this is known, and they are then those of
/// the source's table, in their order. With `sink stops` that holds whatever the source was told. The same
/// script with `sink stops` has the same tables and return packets, and each row that is whole there is whole.
pub fn carriers_law()
    ensures carriers { (scenario : Scenario) (n k : ℕ) (cells : List (List Cell)) →
        length scenario.windows ≤ most_lines → 0 < scenario.lag →
        HasPackets scenario (cells_before scenario n) cells k →
        carriers_at scenario.options cells k ≡ known_lines scenario (cells_before scenario n) k }
    ensures stops { (scenario : Scenario) (returns : List (Option Told)) (k : ℕ)
        (cells : List (List Cell)) → length scenario.windows ≤ most_lines → scenario.options.infers ≡ false →
        HasPackets scenario returns cells k →
        carriers_at scenario.options cells k ≡ known_lines scenario returns k }
    ensures tables { (scenario : Scenario) (returns : List (Option Told)) (k : ℕ) →
        table_of (stopping scenario) returns k ≡ table_of scenario returns k }
    ensures backs { (scenario : Scenario) →
        session_cells (stopping scenario) ≡ session_cells scenario }
    ensures more { (scenario : Scenario) (returns : List (Option Told)) (t : ℕ) →
        is_whole_row (stopping scenario) returns t ≡ true → is_whole_row scenario returns t ≡ true }
{}

/// A row is whole by the packets that the sink reads exactly where it is by the source's table and the
/// failures, and then it gives the octets of the lines that carry payload, in the order of their SQ: those of
/// the stream that the frame carries, where they were dealt to the lines so. With `sink stops` that holds
/// whatever the source was told. Joining gives back what was dealt.
pub fn row_law()
    ensures active { (scenario : Scenario) (returns : List (Option Told)) (k : ℕ)
        (told : Told) (readable : ℕ → Bool) → length scenario.windows ≤ most_lines →
        list_all readable (active (table_of scenario returns k)) ≡ true →
        active_of (packets_from (length scenario.windows) told (table_of scenario returns k) k readable)
        ≡ active (table_of scenario returns k) }
    ensures whole { (scenario : Scenario) (n : ℕ) (sent : ℕ → Container)
        (cells : List (List Cell)) (t : ℕ) → length scenario.windows ≤ most_lines → 0 < scenario.lag →
        TellsRow scenario (cells_before scenario n) sent cells t →
        row_at scenario.options scenario.size cells t
        ≡ (if is_whole_row scenario (cells_before scenario n) t
        then Some (row_octets scenario (cells_before scenario n) sent t) else None) }
    ensures stops { (scenario : Scenario) (returns : List (Option Told)) (sent : ℕ → Container)
        (cells : List (List Cell)) (t : ℕ) →
        length scenario.windows ≤ most_lines → scenario.options.infers ≡ false →
        TellsRow scenario returns sent cells t →
        row_at scenario.options scenario.size cells t
        ≡ (if is_whole_row scenario returns t then Some (row_octets scenario returns sent t)
        else None) }
    ensures payload { (scenario : Scenario) (returns : List (Option Told)) (sent : ℕ → Container)
        (t : ℕ) → IsDealtRow scenario returns sent t →
        row_octets scenario returns sent t ≡ payload_of scenario returns t }
    ensures joined { (octet : ℕ → ℕ) (containers : List Container) (size : ℕ) →
        AreDealt octet containers size →
        carried_row containers size ≡ map octet (range_with_len 0 (size * length containers)) }
{}
