//! `run`: a script's session is run, and what came of it is written.
ghost use Rattle.std.specs.Prelude.{◌≡◌, ◌≤◌, Some, OnOk, OnErr, map, string_bytes};
ghost use Rattle.octet_io.specs.Transfer.{Appends, AppendsPart};
ghost use Rattle.law_model.specs.declared.script_types.Script.{Script};
ghost use Rattle.law_model.specs.session.Leg.{leg_of};
ghost use Rattle.law_walk.specs.LandedOfLeg.{totals_among};
ghost use Rattle.law_walk.specs.Promise.{numbered};
ghost use Rattle.law_walk.specs.WalkReport.{final_report};
ghost use Rattle.command_words.specs.CommandLineWords.{number_in};
ghost use Rattle.command_parts.specs.Task.{reads};
ghost use Rattle.command_parts.specs.Ends.{lent};
ghost use Rattle.command_parts.specs.Gives.{GivesAlone};
ghost use Rattle.command_run.specs.Run.{run_of, run_words, run_answer};
ghost use Rattle.command_run.specs.HandedSession.{HasEnded, HasGot, HandsSession, end_text};

use crate::command_of_words::RunCommand;
use command_parts::{Ran, Stop, read_whole_script, write_rest};
use command_words::number_within;
use law_model::Totals;
use octet_io::{ByteSink, ByteSource, Failed, take_back};
use std::alloc::Global;
use std::sync::Wait;
use std::thread::Threads;
use text_got::GotLines;
use thread_rings::Gate;
use thread_session::session_run::{Ended, run_session};

/// The run of a number of workers.
fn run_of(workers: &[u8]) -> Option<RunCommand>
    ensures { result ≡ run_of (number_in 1 64 workers.now) }
{
    let workers = number_within(workers, 1, 64)? as u8;
    Some(RunCommand::Run { workers })
}

/// The words `run WORKERS`.
pub fn words(words: &[String]) -> Option<RunCommand>
    ensures { result ≡ run_words (map string_bytes words.now) }
{
    match words {
        [word, workers] if word.as_str() == "run" => run_of(workers.as_bytes()),
        _ => None,
    }
}

/// The numbers of a session.
fn totals(ended: &Ended) -> Totals
    ensures { (script : Script) → HasEnded script ended.now → result
        ≡ totals_among (leg_of script) script.config.ticks script.config.ticks
        (numbered 0 script.items) }
{
    Totals {
        taken: ended.sink.taken(),
        got: ended.sink.got(),
        ..ended.group.totals()
    }
}

/// Writes what follows the lines of delivered frames.
fn write_end<K: ByteSink>(ended: &Ended, out: &mut K) -> Result<(), Failed>
    ensures ok { (script : Script) → HasEnded script ended.now → OnOk result
        (Appends K.written K.faults out.old out.new (end_text script)) }
    ensures err { (script : Script) → HasEnded script ended.now → OnErr result
        (AppendsPart K.written K.faults out.old out.new (end_text script)) }
{
    let mut got = GotLines::new(out);
    write_rest(ended.group.refusals(), &totals(ended), &mut got);
    let (back, end) = got.finish();
    take_back(back);
    end
}

/// Writes the end of a report, unless a write of its got lines has failed.
pub(crate) fn end_report<K: ByteSink>(ended: &Ended, out: &mut K) -> Result<(), Failed>
    ensures ok { (script : Script) (first : K) → HasEnded script ended.now →
        HasGot K.written K.faults first out.old script ended.now → OnOk result
        (Appends K.written K.faults first out.new (final_report (leg_of script))) }
    ensures err { (script : Script) (first : K) → HasEnded script ended.now →
        HasGot K.written K.faults first out.old script ended.now → OnErr result
        (AppendsPart K.written K.faults first out.new (final_report (leg_of script))) }
{
    if ended.sink.failed() {
        return Err(Failed);
    }
    write_end(ended, out)
}

/// Reads a script, runs its session with so many threads for its lines, and writes what comes of it.
pub fn run<R: Threads + Wait + Sync, S: ByteSource, K: ByteSink, G: Gate>(
    rt: &R,
    alloc: Global,
    workers: u8,
    script: &mut S,
    out: &mut K,
    gate: &G,
) -> Result<Ran<Ended>, Stop>
    requires least { 1 ≤ workers }
    requires most { workers ≤ 64 }
    ensures { GivesAlone (lent S.left S.faults script.old script.new)
        (lent K.written K.faults out.old out.new) (reads run_answer)
        (λ ended. HandsSession (lent S.left S.faults script.old script.new) (Some ended)) result }
{
    let script = match read_whole_script(alloc, script) {
        Ok(script) => script,
        Err(stop) => return Err(stop),
    };
    let Ok(ended) = run_session(rt, alloc, script, workers, out, gate) else {
        return Err(Stop::Memory);
    };
    let written = end_report(&ended, out);
    Ok(Ran {
        made: ended,
        written,
    })
}
