//! A line that is served.
ghost use Rattle.std.specs.Prelude.{◌≡◌, ℕ, ◌+◌, ◌<◌, ◌≤◌, ◌++◌, List, length, Some};
ghost use Rattle.law_model.specs.Common.{Container, cells};
ghost use Rattle.law_model.specs.members.Damage.{carried};
ghost use Rattle.thread_rings.specs.LineAlarms.{alarms_of_line};
ghost use Rattle.thread_rings.specs.WorkerOfLine.{number_of, delay_of, windows_of, total_of, raised_by};
ghost use Rattle.thread_alarms.specs.declared.alarm_log.alarm_post.AlarmPost.{AlarmPost as Through};
ghost use Rattle.thread_alarms.specs.alarm_log.Posts.{posted_by, most_by, SamePost};

use crate::alarm_log::AlarmPost;
use std::sync::Wait;
use thread_rings::{Alarm, Burst, Gate, IdleCause, LineWorker};

/// The worker of a line, and the post through which its alarms go, where it is watched.
#[derive(Drop)]
pub struct ServedLine {
    pub(super) worker: LineWorker,
    pub(super) post: Option<AlarmPost>,
    ghost told: { (own : Through) → post ≡ Some own → posted_by own ≡ raised_by worker },
    ghost small: { (own : Through) → post ≡ Some own → total_of worker < 4294967296 },
    ghost few: { (own : Through) → post ≡ Some own → (containers : List Container) (i : ℕ) →
        length (alarms_of_line (number_of worker) (cells (carried (windows_of worker))
        (delay_of worker) (total_of worker) containers i))
        ≤ most_by own },
}

/// Posts alarms one after another.
fn post_all<R: Wait>(rt: &R, post: &mut AlarmPost, alarms: &[Alarm])
    requires { length (posted_by post.old) + length alarms.now ≤ most_by post.old }
    ensures posted { posted_by post.new ≡ posted_by post.old ++ alarms.now }
    ensures same { SamePost post.old post.new }
{
    for alarm in alarms {
        post.post(rt, *alarm);
    }
}

impl ServedLine {
    ghost use Rattle.std.specs.Prelude.{◌≡◌, ◌<◌, ◌↔◌, Some, Contains};
    ghost use Rattle.law_model.specs.Common.{Cell};
    ghost use Rattle.thread_alarms.specs.declared.alarm_log.alarm_post.AlarmPost.{AlarmPost as Through};
    ghost use Rattle.thread_rings.specs.EndsOfRing.{out_passed};
    ghost use Rattle.thread_rings.specs.WorkerOfLine.{carries_of, WasEmpty, WasFull};
    ghost use Rattle.thread_alarms.specs.watched_line.ServedWithPosts.{worker_of, post_of, MayWatch, IsServedLater};

    /// A line with its worker, and with a post where it is watched.
    pub fn new(worker: LineWorker, post: Option<AlarmPost>) -> ServedLine
        requires { (own : Through) → post ≡ Some own → MayWatch worker own }
        ensures worker { worker_of result ≡ worker }
        ensures post { post_of result ≡ post }
    {
        ServedLine { worker, post }
    }

    /// Passes the gate and makes a burst of the worker, and posts the alarms that it raised. The answer is
    /// the worker's.
    pub fn burst<R: Wait, G: Gate>(&mut self, rt: &R, gate: &G) -> Burst
        ensures later { IsServedLater self.old self.new }
        ensures moved { (result ≡ Burst.Moved)
            ↔ (carries_of (worker_of self.old) < carries_of (worker_of self.new)) }
        ensures empty { result ≡ Burst.Idle IdleCause.Empty →
            WasEmpty (worker_of self.old) (worker_of self.new) }
        ensures full { result ≡ Burst.Idle IdleCause.Full →
            WasFull (worker_of self.old) (worker_of self.new) }
        ensures done { (result ≡ Burst.Done)
            ↔ Contains (out_passed (worker_of self.old).producer) Cell.End }
        ensures still { result ≡ Burst.Done → self.new ≡ self.old }
    {
        let burst = self.worker.burst(gate);
        if burst == Burst::Done {
            return burst;
        }
        if let Some(post) = &mut self.post {
            post_all(rt, post, self.worker.alarms());
        }
        burst
    }
}
