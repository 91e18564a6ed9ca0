//! A session from its opening to its end.
ghost use Rattle.std.specs.Prelude.{◌≡◌, ◌≤◌, length, false, vec_len};
ghost use Rattle.law_model.specs.declared.script_types.Script.{Script};
ghost use Rattle.thread_rings.specs.EndsOfRing.{AreEnds};
ghost use Rattle.text_report.specs.ReportLines.{got_texts};
ghost use Rattle.terminal_sink.specs.sink_core.TakenAndGiven.{given_frames};
ghost use Rattle.thread_sink.specs.Told.{Writes};
ghost use Rattle.thread_sink.specs.WorkerOfSink.{cells_of, options_of, size_of, taken_of, has_failed};
ghost use Rattle.std.specs.List.{AllZip};
ghost use Rattle.thread_alarms.specs.alarm_log.Posts.{SamePost};
ghost use Rattle.thread_alarms.specs.watched_line.ServedWithPosts.{AreWatchable, AreTold};
ghost use Rattle.thread_session.specs.session_parts.Duty.{IsLogLater};
ghost use Rattle.thread_session.specs.session_parts.LineRingsLaid.{AreSendEnds, AreReceiveEnds};
ghost use Rattle.thread_session.specs.session_run.RoomForThreads.{IsKitFor};
ghost use Rattle.thread_session.specs.session_run.SessionOfScript.{IsOpen, HasComeToEnd};
ghost use Rattle.thread_session.specs.session_run.SessionRingsLaid.{AreLaid, IsSessionOf};

use crate::session_parts::{SinkDuty, lay_receives, lay_sends};
use crate::session_run::finish_in_turn::finish;
use crate::session_run::open_ends::Opened;
use crate::session_run::room_and_flags::{Kit, Places};
use crate::session_run::start_threads::lines_beside;
use law_model::Script;
use octet_io::{ByteSink, take_back};
use std::sync::{Mutex, Wait};
use std::thread::Threads;
use thread_alarms::alarm_log::{AlarmLog, AlarmPost};
use thread_alarms::watched_line::{serve_lines, split_lines};
use thread_group::{BoundGroup, GroupState, Session};
use thread_rings::{Gate, LineWorker};
use thread_sink::SinkWorker;

/// A session that has ended: both ends of each of its rings.
#[derive(Drop)]
pub struct Ended {
    /// The group: the ends of the send rings where containers were pushed, and of the return ring where
    /// return cells were popped.
    pub group: GroupState,
    /// The workers of the lines, in the order of the lines.
    pub lines: Vec<LineWorker>,
    /// The worker of the sink.
    pub sink: SinkWorker,
}

/// What is left of a session: its end, and the posts and the log of its lines, where they were watched.
#[derive(Drop)]
pub(super) struct Left {
    pub(super) ended: Ended,
    pub(super) posts: Vec<AlarmPost>,
    pub(super) log: Option<AlarmLog>,
}

/// Lays both ends of each ring beside each other.
fn lay_beside(group: GroupState, lines: Vec<LineWorker>, sink: SinkWorker) -> Ended
    requires sends { AreSendEnds group.tx.items lines.items }
    requires receives { AreReceiveEnds lines.items sink.rx.items }
    requires returns { AreEnds sink.back group.back }
    requires count { (length group.tx.items ≡ length lines.items)
        × (length sink.rx.items ≡ length lines.items) }
    ensures { AreLaid group lines.items sink result.group result.lines.items result.sink }
{
    let mut group = group;
    let mut lines = lines;
    let mut sink = sink;
    lay_sends(&mut group.tx, &mut lines);
    lay_receives(&mut lines, &mut sink.rx);
    group.back.beside(&mut sink.back);
    Ended { group, lines, sink }
}

/// Runs a session that was opened: its threads beside each other, and then what they haven't done. Each line
/// is watched through the post at its place, where there is one.
pub(super) fn run_opened<Y: Session, R: Threads + Wait + Sync, K: ByteSink, G: Gate>(
    rt: &R,
    gate: &G,
    script: &Script,
    opened: Opened,
    posts: Vec<AlarmPost>,
    log: Option<AlarmLog>,
    out: &mut K,
) -> Left
    requires session { IsSessionOf Y.script Y.tx Y.back script.now opened.group }
    requires open { IsOpen script.now opened.group opened.lines.items opened.sink }
    requires kit { IsKitFor (vec_len opened.lines) opened.kit }
    requires few { vec_len posts ≤ vec_len opened.lines }
    requires watch { AreWatchable opened.lines.items posts.items }
    ensures end { HasComeToEnd script.now result.ended.group result.ended.lines.items
        result.ended.sink }
    ensures written { Writes K.written K.faults false (has_failed result.ended.sink)
        out.old out.new
        (got_texts (given_frames (options_of result.ended.sink) (size_of result.ended.sink)
        (cells_of result.ended.sink) (taken_of result.ended.sink))) }
    ensures posts { AllZip SamePost posts.items result.posts.items }
    ensures log { IsLogLater log result.log }
    ensures told { vec_len posts ≡ vec_len opened.lines →
        AreTold result.ended.lines.items result.posts.items }
{
    let Opened {
        group,
        lines,
        sink,
        kit,
    } = opened;
    let Kit {
        flags,
        room,
        places,
        mut frame,
    } = kit;
    let Places {
        lines: served,
        workers,
        posts: given_back,
    } = places;
    let items = &script.items;
    let lock = Mutex::new(BoundGroup::<Y>::new(group));
    let duty = SinkDuty::new(rt, sink, out, log);
    let lines = serve_lines(lines, posts, served);
    let (mut lines, duty) = lines_beside::<Y, R, G, SinkDuty<'_, R, K>>(
        rt, gate, &lock, &flags, items, lines, room, duty,
    );
    let (mut sink, place, log) = duty.into_parts();
    let mut group = lock.into_inner();
    finish::<Y, R, K, G>(
        rt, gate, items, &mut frame, &mut group, &mut lines, &mut sink, place,
    );
    take_back(place);
    let (lines, posts) = split_lines(lines, workers, given_back);
    Left {
        ended: lay_beside(group.into_state(), lines, sink),
        posts,
        log,
    }
}
