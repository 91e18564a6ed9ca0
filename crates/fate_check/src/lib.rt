//! What in a script is unused or idle or early or refused: lines that carry payload in no row, failures that for
//! certain spoil none, accepted frames that are due before any line carries payload, and refused items. No turn
//! is made here: it is all worked out from a walk that was seen, and nothing of it is kept. Begin with
//! `write_check`; `idle_law` says what an idle failure leaves as it is.
#![tactic(auto)]

ghost use Rattle.std.specs.Prelude.{◌≡◌, ℕ, ◌<◌, true, List, [], ◌∷◌, ◌++◌, map, Option, Some, slice_get};
ghost use Rattle.law_model.specs.declared.window_types.Window.{Window};
ghost use Rattle.law_model.specs.session.Scenario.{Scenario, scenario_by};
ghost use Rattle.law_model.specs.rows.SessionRows.{is_whole_row};
ghost use Rattle.law_model.specs.source.Table.{Told};
ghost use Rattle.law_model.specs.source.Source.{table_of};
ghost use Rattle.law_walk.specs.Walk.{session_of};
ghost use Rattle.law_walk.specs.LandedOfLeg.{Numbered};
ghost use Rattle.fate_check.specs.UsedLines.{unused_lines, first_payload};
ghost use Rattle.fate_check.specs.IdleWindows.{is_idle, idle_windows};
ghost use Rattle.fate_check.specs.OtherFailures.{with_windows};
ghost use Rattle.fate_check.specs.EarlyFrames.{payload_row, early_frames};
ghost use Rattle.fate_check.specs.Worked.{unused_window, worked_leg, lone_leg, early_leg, early_counts};

mod check_lines;
mod early_frames;
mod idle_windows;
mod used_lines;
mod write_check_lines;

pub use write_check_lines::write_check;

/// A failure that is told idle changes no row: without it the same rows are whole, by the same return packets.
/// Those alone lead from a failure to the tables.
pub fn idle_law()
    ensures whole { (scenario : Scenario) (cells : List (Option Told)) (rows line t : ℕ)
        (before after : List Window) (window : Window) →
        slice_get scenario.windows line ≡ Some (before ++ window ∷ after) →
        is_idle scenario cells rows line window ≡ true → t < rows →
        is_whole_row (with_windows scenario line (before ++ after)) cells t
        ≡ is_whole_row scenario cells t }
    ensures tables { (scenario : Scenario) (cells : List (Option Told)) (line k : ℕ) (windows : List Window) →
        table_of (with_windows scenario line windows) cells k ≡ table_of scenario cells k }
{}

/// Worked legs, computed. Of two lines one is never added, and its failure is idle. A line that fails alone is
/// heard by nobody in the meantime: that spoils rows, although it carries no payload in them. A frame that is due
/// in the row before the first payload is early, and one that is due in the row of the first payload isn't.
pub fn worked_law()
    ensures unused { unused_lines worked_leg 100 ≡ 1 ∷ [] }
    ensures first { first_payload (scenario_by worked_leg) (session_of worked_leg) 100 ≡ Some 40 }
    ensures idle { idle_windows worked_leg 100 ≡ (1, unused_window) ∷ [] }
    ensures lone { idle_windows lone_leg 100 ≡ [] }
    ensures payload { payload_row early_leg early_counts ≡ Some 40 }
    ensures early { map (λ (frame : Numbered). frame.item.due)
        (early_frames early_leg early_counts) ≡ 39 ∷ [] }
{}
