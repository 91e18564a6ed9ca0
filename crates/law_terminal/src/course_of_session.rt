//! A session as far as it has come is the session.

ghost use Rattle.std.specs.Prelude.{◌≡◌, ℕ, suc, ◌+◌, ◌*◌, ◌<◌, ◌≤◌, [], ◌∷◌, ◌++◌, List, length, replicate, Some};
ghost use Rattle.std.specs.Prelude.{if◌then◌else◌};
ghost use Rattle.std.specs.Prelude.{None};
ghost use Rattle.law_model.specs.Common.{Cell, Scenario, packets, steps_in, told_in, after, return_cell};
ghost use Rattle.law_model.specs.Common.{cells_before, session_cells, stream_before, payload_of, row_at, return_at};
ghost use Rattle.law_model.specs.Common.{is_whole_row, container_of, frame_of, carriers_at, known_lines};
ghost use Rattle.law_line.specs.StableRows.{IsLonger, AreDecidedAt};
ghost use Rattle.law_terminal.specs.SessionLines.{HasLines, ComeOfLines};
ghost use Rattle.law_terminal.specs.Course.{back_of, packet_by, told_of, IsCourse};

/// Packets give tables, tables give rows, and rows give packets: where the source was told just what the sink
/// says by the cells that came of the source's own containers, that is the return cells of the session. So
/// each container made is the session's, and so is each row and each return packet that the cells decide.
pub fn course_law()
    ensures returns { (scenario : Scenario) (frames n : ℕ) (cells : List (List Cell)) →
        HasLines scenario → 0 < scenario.lag → IsCourse scenario frames n cells →
        told_of scenario cells n ≡ cells_before scenario n }
    ensures containers { (scenario : Scenario) (frames n line t : ℕ) (cells : List (List Cell)) →
        HasLines scenario → 0 < scenario.lag → IsCourse scenario frames n cells → t < frames →
        container_of scenario (told_of scenario cells n) line t
        ≡ container_of scenario (session_cells scenario) line t }
    ensures come { (scenario : Scenario) (frames n : ℕ) (cells : List (List Cell)) →
        HasLines scenario → 0 < scenario.lag → IsCourse scenario frames n cells →
        ComeOfLines scenario (session_cells scenario) frames cells }
    ensures rows { (scenario : Scenario) (frames n t : ℕ) (cells : List (List Cell)) →
        HasLines scenario → 0 < scenario.lag → IsCourse scenario frames n cells →
        t < scenario.ticks → AreDecidedAt cells t →
        row_at scenario.options scenario.size cells t ≡ (if is_whole_row scenario (session_cells scenario) t
        then Some (payload_of scenario (session_cells scenario) t) else None) }
    ensures carriers { (scenario : Scenario) (frames n k : ℕ) (cells : List (List Cell)) →
        HasLines scenario → 0 < scenario.lag → IsCourse scenario frames n cells →
        16 * k + 23 < scenario.ticks → AreDecidedAt cells (16 * k + 23) →
        carriers_at scenario.options cells k ≡ known_lines scenario (session_cells scenario) k }
    ensures backs { (scenario : Scenario) (frames n k : ℕ) (cells : List (List Cell)) →
        HasLines scenario → 0 < scenario.lag → IsCourse scenario frames n cells →
        16 * k + 23 < scenario.ticks → AreDecidedAt cells (16 * k + 23) →
        told_in (back_of scenario cells k) ≡ return_cell scenario (session_cells scenario) k }
    ensures packets { (scenario : Scenario) (frames n k : ℕ) (cells : List (List Cell)) →
        HasLines scenario → 0 < scenario.lag → IsCourse scenario frames n cells →
        16 * k + 23 < scenario.ticks → AreDecidedAt cells (16 * k + 23) →
        return_at scenario.options cells k ≡ packet_by scenario (session_cells scenario) k }
{}

/// A course begins with nothing, and each event keeps it: a frame is made, for whose decision step the return
/// cell has come; more cells come of the containers made so far; the next return cell comes, once the row
/// that ends its packet is decided.
pub fn keep_law()
    ensures opens { (scenario : Scenario) →
        IsCourse scenario 0 0 (replicate (length scenario.windows) []) }
    ensures ticks { (scenario : Scenario) (frames n : ℕ) (cells : List (List Cell)) →
        frames < scenario.ticks → steps_in (suc frames) ≤ n + scenario.lag →
        IsCourse scenario frames n cells → IsCourse scenario (suc frames) n cells }
    ensures comes { (scenario : Scenario) (frames n : ℕ) (cells longer : List (List Cell)) →
        IsLonger cells longer → ComeOfLines scenario (told_of scenario cells n) frames longer →
        IsCourse scenario frames n cells → IsCourse scenario frames n longer }
    ensures backs { (scenario : Scenario) (frames n : ℕ) (cells : List (List Cell)) →
        n < packets scenario → AreDecidedAt cells (16 * n + 23) →
        IsCourse scenario frames n cells → IsCourse scenario frames (suc n) cells }
{}

/// By the session's own return cells, event by event: a frame that is made by those that have come is the
/// session's, and so are the source's table and the client's stream; and what the sink says next is the
/// session's next return cell.
pub fn loop_law()
    ensures frames { (scenario : Scenario) (n frames t : ℕ) → n ≤ packets scenario →
        steps_in frames ≤ n + scenario.lag → t < frames →
        frame_of scenario (cells_before scenario n) t
        ≡ frame_of scenario (session_cells scenario) t }
    ensures sources { (scenario : Scenario) (n frames j : ℕ) → n ≤ packets scenario →
        steps_in frames ≤ n + scenario.lag → j ≤ steps_in frames →
        after scenario (cells_before scenario n) j ≡ after scenario (session_cells scenario) j }
    ensures streams { (scenario : Scenario) (n frames t : ℕ) → n ≤ packets scenario →
        steps_in frames ≤ n + scenario.lag → t ≤ frames →
        stream_before scenario (cells_before scenario n) t
        ≡ stream_before scenario (session_cells scenario) t }
    ensures next { (scenario : Scenario) (frames k : ℕ) (cells : List (List Cell)) →
        HasLines scenario → 0 < scenario.lag → k < packets scenario →
        ComeOfLines scenario (session_cells scenario) frames cells → AreDecidedAt cells (16 * k + 23) →
        cells_before scenario (suc k)
        ≡ cells_before scenario k ++ told_in (back_of scenario cells k) ∷ [] }
{}
