//! The program as a call: words, an input and two outputs in, a status and a session out.
ghost use Rattle.std.specs.Prelude.{◌≡◌, ◌≢◌, ℕ, List, IfSome, None};
ghost use Rattle.law_model.specs.Common.{Appends, Tells};
ghost use Rattle.law_headline.specs.Headline.{IsRunHeadline};
ghost use Rattle.command_parts.specs.Common.{HasRunAt, Ends, lent};
ghost use Rattle.command_run.specs.Commands.{task_of, usage};
ghost use Rattle.command_run.specs.HandedSession.{HandsSession};

use crate::command_of_words::RunCommand;
use crate::run::run;
use crate::run_end::{RunEnd, end_of};
use crate::watch::watch;
use command_parts::{Stop, tell_usage};
use command_words::{WordFault, read_words};
use octet_io::{ByteSink, ByteSource};
use std::alloc::Global;
use std::sync::Wait;
use std::thread::Threads;
use thread_rings::Gate;

/// Runs the command that the words say. `run WORKERS` reads a script and runs its session, the client, the
/// operator, the source and the lines on threads, of which 1 to 64 are for the lines, and the sink here. It
/// writes on `out` the got lines of the frames that are delivered, the lines of refused items, and the line
/// of totals. Whatever the order in which the threads went on, the text is the same. Event lines of the
/// script aren't looked at. `watch WORKERS` does the same, and writes on `notes` the alarms of each line:
/// where it fails, where it returns, and where it ends. That the call returns is not promised.
///
/// The status is 2 where the words are no command, 3 where the input can't be read, 8 where it has more than
/// 67,108,864 octets, 5 where one of its lines is faulty, 6 where its slips, spread or lag don't fit, 4
/// where the output can't be written, 7 where memory is short, and else 0. For `watch` it's 4 too
/// where `notes` can't be written. Of those that hold the first in this order is told; want of memory may
/// come in the place of any but 2, before anything is written. A note says on `notes` what went wrong. After
/// a fault nothing more is written but that note.
pub fn run_top<R: Threads + Wait + Sync, S: ByteSource, K: ByteSink, E: ByteSink, G: Gate>(
    rt: &R,
    alloc: Global,
    words: &[String],
    script: &mut S,
    out: &mut K,
    notes: &mut E,
    gate: &G,
) -> RunEnd
    // For every order of the threads, by the status: what was read, what of it is answered, what is written
    // of that and where, and which call failed. What `run` answers is one definition. What an end says stands
    // fact by fact in `end_law`.
    ensures ends { Ends (lent S.left S.faults script.old script.new)
        (lent K.written K.faults out.old out.new) (lent E.written E.faults notes.old notes.new)
        (task_of words.now) result.status }

    // The headline, of a source that tells its octets: what is written of a script is, in order and each
    // once, exactly those accepted frames that its rows carry and that aren't lost, as got lines; then the
    // refused items and the totals.
    ensures headline { result.status ≡ 0 → IfSome (S.left script.old) (λ text. (written : List ℕ)
        × Appends K.written K.faults out.old out.new written × IsRunHeadline text written) }

    // The session that is handed back has come to its end, also where a write failed: its ticks, what has
    // landed, and the lists of all its rings are those of the script.
    ensures handed { HasRunAt result.status →
        HandsSession (lent S.left S.faults script.old script.new) result.ended }
    ensures kept { result.status ≢ 0 → result.status ≢ 4 → result.ended ≡ None }
{
    match read_words(alloc, words) {
        Ok(RunCommand::Run { workers }) => end_of(
            run(rt, alloc, workers, script, out, gate),
            notes,
        ),
        Ok(RunCommand::Watch { workers }) => {
            end_of(watch(rt, alloc, workers, script, out, notes, gate), notes)
        }
        Err(WordFault::Usage) => no_command(notes),
        Err(WordFault::Memory) => end_of(Err(Stop::Memory), notes),
    }
}

/// Says on `notes` which commands the program has.
fn no_command<E: ByteSink>(notes: &mut E) -> RunEnd
    ensures status { result.status ≡ 2 }
    ensures ended { result.ended ≡ None }
    ensures told { Tells E.written E.faults notes.old notes.new usage }
{
    let status = tell_usage(b"usage: vcat_run run WORKERS or watch WORKERS\n", notes);
    RunEnd {
        status,
        ended: None,
    }
}
