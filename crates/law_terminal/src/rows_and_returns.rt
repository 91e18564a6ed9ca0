//! What the sink makes of the cells that have come.

ghost use Rattle.std.specs.Prelude.{◌≡◌, ℕ, ◌+◌, ◌*◌, ◌<◌, false, List, Option, Some, None};
ghost use Rattle.std.specs.Prelude.{if◌then◌else◌};
ghost use Rattle.law_model.specs.Common.{Cell, Scenario, packets, Told, told_in, return_cell, cells_before};
ghost use Rattle.law_model.specs.Common.{payload_of, row_at, return_at, is_whole_row, carriers_at, known_lines};
ghost use Rattle.law_line.specs.StableRows.{AreDecidedAt};
ghost use Rattle.law_terminal.specs.SessionLines.{HasLines, ComeOfLines};
ghost use Rattle.law_terminal.specs.Course.{back_of, packet_by};

/// What the sink makes of it. Where the source was told the session's return cells, a row that is decided on
/// each line is whole exactly where the source's table and the failures make it so, and then it gives the
/// octets of the client's stream that its frame carries. With `sink stops` that holds whatever the source was
/// told. The sink knows which lines carry payload exactly where the definition of a session says so. And what
/// comes of a return packet tells the source what that definition says, or is lost.
pub fn rows_law()
    ensures rows { (scenario : Scenario) (n frames t : ℕ) (cells : List (List Cell)) →
        HasLines scenario → 0 < scenario.lag →
        ComeOfLines scenario (cells_before scenario n) frames cells →
        t < scenario.ticks → AreDecidedAt cells t →
        row_at scenario.options scenario.size cells t
        ≡ (if is_whole_row scenario (cells_before scenario n) t
        then Some (payload_of scenario (cells_before scenario n) t) else None) }
    ensures stops { (scenario : Scenario) (returns : List (Option Told)) (frames t : ℕ)
        (cells : List (List Cell)) → HasLines scenario → scenario.options.infers ≡ false →
        ComeOfLines scenario returns frames cells → t < scenario.ticks → AreDecidedAt cells t →
        row_at scenario.options scenario.size cells t
        ≡ (if is_whole_row scenario returns t then Some (payload_of scenario returns t) else None) }
    ensures carriers { (scenario : Scenario) (n frames k : ℕ) (cells : List (List Cell)) →
        HasLines scenario → 0 < scenario.lag →
        ComeOfLines scenario (cells_before scenario n) frames cells →
        16 * k + 23 < scenario.ticks → AreDecidedAt cells (16 * k + 23) →
        carriers_at scenario.options cells k ≡ known_lines scenario (cells_before scenario n) k }
    ensures backs { (scenario : Scenario) (n frames k : ℕ) (cells : List (List Cell)) →
        HasLines scenario → 0 < scenario.lag →
        ComeOfLines scenario (cells_before scenario n) frames cells →
        16 * k + 23 < scenario.ticks → AreDecidedAt cells (16 * k + 23) →
        told_in (back_of scenario cells k) ≡ return_cell scenario (cells_before scenario n) k }
    ensures packets { (scenario : Scenario) (returns : List (Option Told)) (frames k : ℕ)
        (cells : List (List Cell)) → HasLines scenario → ComeOfLines scenario returns frames cells →
        16 * k + 23 < scenario.ticks → AreDecidedAt cells (16 * k + 23) →
        return_at scenario.options cells k ≡ packet_by scenario returns k }
{}
