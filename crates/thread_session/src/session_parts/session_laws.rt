//! What the ends of all rings say of a session that has ended.
ghost use Rattle.std.specs.Prelude.{◌≡◌, ℕ, ◌+◌, ◌<◌, List, slice_get, length, Option, Some};
ghost use Rattle.law_model.specs.Common.{Container, Cell, leg_of, IsValid, scenario_of, Told, containers_of};
ghost use Rattle.law_model.specs.declared.script_types.Script.{Script};
ghost use Rattle.law_line.specs.StableRows.{AreDecidedAt};
ghost use Rattle.law_terminal.specs.SessionLines.{given, ComeOfLines};
ghost use Rattle.law_terminal.specs.Course.{told_of, IsCourse};
ghost use Rattle.law_walk.specs.Common.{sent_on, delay_on, delivered_of};
ghost use Rattle.terminal_sink.specs.sink_core.TakenAndGiven.{given_frames};
ghost use Rattle.thread_sink.specs.ReceivedByRings.{received, backs};
ghost use Rattle.thread_rings.specs.EndsOfRing.{OutEnd, InEnd, out_passed, in_passed};
ghost use Rattle.thread_rings.specs.declared.line_worker.LineWorker.{LineWorker};
ghost use Rattle.thread_session.specs.session_parts.EndedSession.{IsGathered, session_backs};

/// Each line that has come to its end received all that was made for it and sent the cells of its path, and
/// what the sink popped has come of it, whatever the source was told.
pub fn gathered_law()
    ensures lines { (script : Script) (returns : List (Option Told)) (tx : List (OutEnd Container))
        (workers : List LineWorker) (rx : List (InEnd Cell)) →
        IsGathered script returns tx workers rx → (m : ℕ) (worker : LineWorker) →
        slice_get workers m ≡ Some worker → (in_passed worker.consumer
        ≡ containers_of (scenario_of script) returns m script.config.ticks)
        × (out_passed worker.producer ≡ given (scenario_of script) returns m script.config.ticks
        (delay_on (leg_of script) m) (script.config.ticks + delay_on (leg_of script) m + 1)) }
    ensures come { (script : Script) (returns : List (Option Told)) (tx : List (OutEnd Container))
        (workers : List LineWorker) (rx : List (InEnd Cell)) →
        IsGathered script returns tx workers rx →
        length script.config.windows ≡ script.config.lines →
        ComeOfLines (scenario_of script) returns script.config.ticks (received rx) }
{}

/// Where the source was told what the sink said by cells that decide all rows, what was made is the
/// session's, and so are the frames of the rows and the return cells.
pub fn ended_law()
    ensures made { (script : Script) → IsValid script → (n : ℕ) (own : List (List Cell)) →
        IsCourse (scenario_of script) script.config.ticks n own → (m : ℕ) →
        containers_of (scenario_of script) (told_of (scenario_of script) own n) m
        script.config.ticks ≡ sent_on (scenario_of script) m }
    ensures frames { (script : Script) → IsValid script → (n : ℕ) (own : List (List Cell)) →
        IsCourse (scenario_of script) script.config.ticks n own →
        ((t : ℕ) → t < script.config.ticks → AreDecidedAt own t) →
        given_frames script.config.options script.config.size own script.config.ticks
        ≡ delivered_of (leg_of script) script.config.ticks }
    ensures backs { (script : Script) → IsValid script → (n : ℕ) (own : List (List Cell)) →
        IsCourse (scenario_of script) script.config.ticks n own →
        ((t : ℕ) → t < script.config.ticks → AreDecidedAt own t) →
        backs script.config.options own script.config.ticks ≡ session_backs script }
{}
