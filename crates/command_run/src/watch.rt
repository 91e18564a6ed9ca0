//! `watch`: a script's session is run, and what came of it is written, with the alarms of its lines on `notes`.
ghost use Rattle.std.specs.Prelude.{◌≡◌, ◌≤◌, ◌<◌, Some, OnOk, OnErr, map, string_bytes};
ghost use Rattle.octet_io.specs.Transfer.{Appends, AppendsPart};
ghost use Rattle.command_words.specs.CommandLineWords.{number_in};
ghost use Rattle.thread_alarms.specs.alarm_log.Logs.{alarms_in};
ghost use Rattle.thread_alarms.specs.alarm_text.AlarmTextLines.{lines_text};
ghost use Rattle.command_parts.specs.Task.{reads};
ghost use Rattle.command_parts.specs.Ends.{lent};
ghost use Rattle.command_parts.specs.Gives.{Gives};
ghost use Rattle.command_run.specs.Watch.{watch_of, watch_words, watch_answer};
ghost use Rattle.command_run.specs.HandedSession.{HandsSession};

use crate::command_of_words::RunCommand;
use crate::run::end_report;
use command_parts::{Ran, Stop, read_whole_script};
use command_words::number_within;
use octet_io::{ByteSink, ByteSource, Failed, take_back};
use std::alloc::Global;
use std::sync::Wait;
use std::thread::Threads;
use text_got::GotLines;
use thread_alarms::alarm_log::AlarmList;
use thread_alarms::alarm_text::write_alarms;
use thread_rings::Gate;
use thread_session::session_run::{Ended, run_watched};

/// The watched run of a number of workers.
fn watch_of(workers: &[u8]) -> Option<RunCommand>
    ensures { result ≡ watch_of (number_in 1 64 workers.now) }
{
    let workers = number_within(workers, 1, 64)? as u8;
    Some(RunCommand::Watch { workers })
}

/// The words `watch WORKERS`.
pub fn words(words: &[String]) -> Option<RunCommand>
    ensures { result ≡ watch_words (map string_bytes words.now) }
{
    match words {
        [word, workers] if word.as_str() == "watch" => watch_of(workers.as_bytes()),
        _ => None,
    }
}

/// Writes the alarms of so many lines.
fn tell_alarms<E: ByteSink>(lines: u8, list: &AlarmList, notes: &mut E) -> Result<(), Failed>
    ensures ok { OnOk result (Appends E.written E.faults notes.old notes.new
        (lines_text lines (alarms_in list.now))) }
    ensures err { OnErr result (AppendsPart E.written E.faults notes.old notes.new
        (lines_text lines (alarms_in list.now))) }
{
    let mut got = GotLines::new(notes);
    write_alarms(lines, list.alarms(), &mut got);
    let (back, end) = got.finish();
    take_back(back);
    end
}

/// Reads a script, runs its session with so many threads for its lines, and writes what comes of it, and the
/// alarms of its lines. A write that fails, on `out` or on `notes`, is the last one but for the note on it.
pub fn watch<R: Threads + Wait + Sync, S: ByteSource, K: ByteSink, E: ByteSink, G: Gate>(
    rt: &R,
    alloc: Global,
    workers: u8,
    script: &mut S,
    out: &mut K,
    notes: &mut E,
    gate: &G,
) -> Result<Ran<Ended>, Stop>
    requires least { 1 ≤ workers }
    requires most { workers ≤ 64 }
    ensures { Gives (lent S.left S.faults script.old script.new)
        (lent K.written K.faults out.old out.new) (lent E.written E.faults notes.old notes.new)
        (reads watch_answer)
        (λ ended. HandsSession (lent S.left S.faults script.old script.new) (Some ended)) result }
{
    let script = match read_whole_script(alloc, script) {
        Ok(script) => script,
        Err(stop) => return Err(stop),
    };
    let lines = script.config.lines;
    let Ok((ended, list)) = run_watched(rt, alloc, script, workers, out, gate) else {
        return Err(Stop::Memory);
    };
    let Ok(()) = end_report(&ended, out) else {
        return Ok(Ran {
            made: ended,
            written: Err(Failed),
        });
    };
    let written = tell_alarms(lines, &list, notes);
    Ok(Ran {
        made: ended,
        written,
    })
}
