//! The call that runs a session of which each line is watched.
ghost use Rattle.std.specs.Prelude.{◌≡◌, ℕ, ◌<◌, ◌≤◌, true, false, All, IfOk, IfErr};
ghost use Rattle.law_model.specs.Common.{leg_of, Appends, AppendsPart, IsValid};
ghost use Rattle.text_report.specs.ReportLines.{got_texts};
ghost use Rattle.thread_rings.specs.declared.alarm_kinds.Alarm.{Alarm};
ghost use Rattle.thread_rings.specs.LineAlarms.{alarms_of_line};
ghost use Rattle.thread_alarms.specs.alarm_log.Alarms.{of_line};
ghost use Rattle.thread_alarms.specs.alarm_log.Logs.{alarms_in};
ghost use Rattle.thread_sink.specs.WorkerOfSink.{has_failed};
ghost use Rattle.law_walk.specs.Common.{delivered_of, line_cells};
ghost use Rattle.thread_session.specs.session_parts.EndedSession.{IsEnded};
ghost use Rattle.thread_session.specs.session_run.SessionOfScript.{IsGroupEnded};

use crate::session_run::open_ends::open;
use crate::session_run::opened_session::{Ended, Left, run_opened};
use law_model::Script;
use octet_io::ByteSink;
use std::alloc::{AllocError, Global};
use std::marker::Brand;
use std::sync::Wait;
use std::thread::Threads;
use thread_alarms::alarm_log::{AlarmList, make_log};
use thread_rings::Gate;

/// How many alarms the queue of the log has room for.
const QUEUE: u32 = 1024;

/// The most alarms of a line: two for each of 256 windows, and one for its end.
const MOST: u32 = 513;

/// Runs the session of a script as `run_session` does, and beside it collects the alarms of each line in the
/// order in which the line raised them: each line posts those of a burst through a post of its own, and they
/// come to one list through one queue. There are no alarms of other lines.
pub fn run_watched<R: Threads + Wait + Sync, K: ByteSink, G: Gate>(
    rt: &R,
    alloc: Global,
    script: Script,
    workers: u8,
    out: &mut K,
    gate: &G,
) -> Result<(Ended, AlarmList), AllocError>
    requires script { IsValid script }
    requires least { 1 ≤ workers }
    requires most { workers ≤ 64 }
    ensures rings { IfOk result (λ w.
        IsEnded script w.0.group.tx.items w.0.group.back w.0.lines.items w.0.sink) }
    ensures group { IfOk result (λ w. IsGroupEnded script w.0.group) }
    ensures written { IfOk result (λ w. has_failed w.0.sink ≡ false →
        Appends K.written K.faults out.old out.new
        (got_texts (delivered_of (leg_of script) script.config.ticks))) }
    ensures part { IfOk result (λ w. has_failed w.0.sink ≡ true →
        AppendsPart K.written K.faults out.old out.new
        (got_texts (delivered_of (leg_of script) script.config.ticks))) }
    ensures alarms { IfOk result (λ w. (m : ℕ) → m < script.config.lines →
        of_line m (alarms_in w.1) ≡ alarms_of_line m (line_cells (leg_of script) m)) }
    ensures below { IfOk result (λ w.
        All (λ (alarm : Alarm). alarm.line < script.config.lines) (alarms_in w.1)) }
    ensures nothing { IfErr result (λ _. out.new ≡ out.old) }
{
    let (log, posts) = make_log(alloc, script.config.lines, QUEUE, MOST)?;
    let opened = open(alloc, &script, workers)?;
    let left = run_opened::<Brand, R, K, G>(rt, gate, &script, opened, posts, Some(log), out);
    let Left { ended, posts, log } = left;
    match log {
        Some(log) => Ok((ended, log.finish(rt, posts))),
        None => unreachable!(),
    }
}
