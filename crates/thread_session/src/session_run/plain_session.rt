//! The call that runs a session.
ghost use Rattle.std.specs.Prelude.{◌≡◌, ◌≤◌, true, false, IfOk, IfErr};
ghost use Rattle.law_model.specs.Common.{leg_of, Appends, AppendsPart, IsValid};
ghost use Rattle.text_report.specs.ReportLines.{got_texts};
ghost use Rattle.thread_sink.specs.WorkerOfSink.{has_failed};
ghost use Rattle.law_walk.specs.Common.{delivered_of};
ghost use Rattle.thread_session.specs.session_parts.EndedSession.{IsEnded};
ghost use Rattle.thread_session.specs.session_run.SessionOfScript.{IsGroupEnded};

use crate::session_run::open_ends::open;
use crate::session_run::opened_session::{Ended, Left, run_opened};
use law_model::Script;
use octet_io::ByteSink;
use std::alloc::{AllocError, Global};
use std::marker::Brand;
use std::sync::Wait;
use std::thread::Threads;
use thread_rings::Gate;

/// Runs the session of a script: the client, the operator and the source, and lines on `workers` threads,
/// beside each other, and the sink here, which writes a line on `out` for each frame that is delivered.
/// Whatever has no thread, and whatever is left once the others have ended, is done here too. Whatever the
/// order in which they went on, what has come of it is what the script says. The error comes before anything
/// is written.
pub fn run_session<R: Threads + Wait + Sync, K: ByteSink, G: Gate>(
    rt: &R,
    alloc: Global,
    script: Script,
    workers: u8,
    out: &mut K,
    gate: &G,
) -> Result<Ended, AllocError>
    requires script { IsValid script }
    requires least { 1 ≤ workers }
    requires most { workers ≤ 64 }
    ensures rings { IfOk result (λ e.
        IsEnded script e.group.tx.items e.group.back e.lines.items e.sink) }
    ensures group { IfOk result (λ e. IsGroupEnded script e.group) }
    ensures written { IfOk result (λ e. has_failed e.sink ≡ false →
        Appends K.written K.faults out.old out.new
        (got_texts (delivered_of (leg_of script) script.config.ticks))) }
    ensures part { IfOk result (λ e. has_failed e.sink ≡ true →
        AppendsPart K.written K.faults out.old out.new
        (got_texts (delivered_of (leg_of script) script.config.ticks))) }
    ensures nothing { IfErr result (λ _. out.new ≡ out.old) }
{
    let opened = open(alloc, &script, workers)?;
    let posts = Vec::new(alloc);
    let left = run_opened::<Brand, R, K, G>(rt, gate, &script, opened, posts, None, out);
    let Left { ended, posts, log } = left;
    drop((posts, log));
    Ok(ended)
}
