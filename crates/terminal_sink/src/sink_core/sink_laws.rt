//! What more cells and more rows change of what a sink gives, and what it gives in a session.

ghost use Rattle.std.specs.Prelude.{◌≡◌, ◌≢◌, ℕ, ◌+◌, ◌*◌, ◌<◌, ◌≤◌, List, ◌++◌, length, Option, Some, None};
ghost use Rattle.law_model.specs.Common.{return_at, Cell, Scenario, Told, segments_of, cells_before, deliver, rows_of};
ghost use Rattle.law_model.specs.Common.{longest_frame, most_lines};
ghost use Rattle.law_model.specs.declared.script_types.Options.{Options};
ghost use Rattle.law_line.specs.StableRows.{IsLonger, AreDecidedAt};
ghost use Rattle.member_rows.specs.realign_rows.Gather.{with_cell};
ghost use Rattle.terminal_sink.specs.sink_core.TakenAndGiven.{received_rows, given_frames, added_frames, back_at};
ghost use Rattle.terminal_sink.specs.sink_core.Core.{Core, SinkStands};
ghost use Rattle.terminal_sink.specs.sink_core.SessionTells.{AreSessionRows, TellRows};

/// What was taken stays taken where more cells come, and more rows give more frames and change none of those
/// before. Return packet k is made at row 16 k + 23.
pub fn sink_law()
    ensures stands { (core : Core) (cells longer : List (List Cell)) → IsLonger cells longer →
        SinkStands core cells → SinkStands core longer }
    ensures frames { (options : Options) (size taken : ℕ) (cells longer : List (List Cell)) →
        IsLonger cells longer →
        ((t : ℕ) → t < taken → AreDecidedAt cells t) →
        given_frames options size longer taken ≡ given_frames options size cells taken }
    ensures back { (options : Options) (t : ℕ) (cells longer : List (List Cell)) →
        IsLonger cells longer → AreDecidedAt cells t →
        back_at options longer t ≡ back_at options cells t }
    ensures there { (options : Options) (cells : List (List Cell)) (k : ℕ) →
        back_at options cells (16 * k + 23) ≡ Some (return_at options cells k) }
    ensures elsewhere { (options : Options) (cells : List (List Cell)) (t : ℕ) →
        ((k : ℕ) → t ≢ 16 * k + 23) → back_at options cells t ≡ None }
    ensures added { (options : Options) (size before taken : ℕ) (cells : List (List Cell)) →
        before ≤ taken → given_frames options size cells taken
        ≡ given_frames options size cells before ++ added_frames options size cells before taken }
    ensures cell { (cells : List (List Cell)) (line : ℕ) (cell : Cell) →
        IsLonger cells (with_cell cells line cell) }
{}

/// Where the first rows that the cells give are those of a session, the frames given are those that it
/// delivers in these rows. They are where the source was told the session's return cells, and the cells tell
/// the packets that could be read and the containers that are good, and these were dealt the octets of the
/// stream.
pub fn session_sink_law()
    ensures frames { (scenario : Scenario) (returns : List (Option Told)) (cells : List (List Cell))
        (n : ℕ) → AreSessionRows scenario returns cells n →
        given_frames scenario.options scenario.size cells n ≡ deliver longest_frame (rows_of scenario returns n) }
    ensures last { (scenario : Scenario) (returns : List (Option Told)) (cells : List (List Cell))
        (n : ℕ) → AreSessionRows scenario returns cells n →
        (segments_of (received_rows scenario.options scenario.size cells n)).last.octets
        ≡ (segments_of (rows_of scenario returns n)).last.octets }
    ensures rows { (scenario : Scenario) (told : ℕ) (cells : List (List Cell)) (n : ℕ) →
        length scenario.windows ≤ most_lines → 0 < scenario.lag →
        TellRows scenario (cells_before scenario told) cells n →
        AreSessionRows scenario (cells_before scenario told) cells n }
{}
