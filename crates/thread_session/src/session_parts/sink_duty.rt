//! What the calling thread does while others run: a duty of its own. It owns what it writes to for that time,
//! so that what was written is known once the duty comes back.
ghost use Rattle.std.specs.Prelude.{◌≡◌};
ghost use Rattle.thread_session.specs.session_parts.Duty.{IsLogLater};

use octet_io::ByteSink;
use std::sync::Wait;
use thread_alarms::alarm_log::AlarmLog;
use thread_rings::OpenGate;
use thread_sink::{SinkBurst, SinkWorker};

/// What came of a turn.
#[derive(Clone, Copy, Debug, PartialEq, Eq)]
pub enum Turned {
    /// Something was done.
    Moved,
    /// There was nothing to do yet.
    Waits,
    /// There is nothing left to do.
    Over,
}

/// A duty is done turn by turn. However often, it stands for the session that began as it did. A turn says
/// exactly where it is over, and whether something of it was done.
pub trait Duty: Drop {
    ghost use Rattle.std.specs.Prelude.{◌≡◌, ℕ, ◌<◌, ◌↔◌};
    ghost use Rattle.thread_session.specs.session_parts.Duty.{Begun};

    ghost stands_for: { Self → Begun → Type 0 };

    ghost is_over: { Self → Type 0 };

    ghost steps_done: { Self → ℕ };

    /// Makes a turn. Whoever calls it passes the gate.
    fn turn(&mut self) -> Turned
        ensures stands { (begun : Begun) → stands_for self.old begun → stands_for self.new begun }
        ensures over { (result ≡ Turned.Over) ↔ is_over self.old }
        ensures stays { is_over self.old → is_over self.new }
        ensures moved { (begun : Begun) → stands_for self.old begun → result ≡ Turned.Moved →
            steps_done self.old < steps_done self.new }
        ensures waits { (begun : Begun) → stands_for self.old begun → result ≡ Turned.Waits →
            steps_done self.new ≡ steps_done self.old };
}

/// The duty of a sink: to take rows, and to write the lines of their frames. Where lines are watched it moves
/// alarms from the queue of their log too.
#[derive(Drop)]
pub struct SinkDuty<'a, R, K> {
    rt: &'a R,
    sink: SinkWorker,
    out: &'a mut K,
    log: Option<AlarmLog>,
}

/// Moves some alarms from the queue of a log, where there is one.
fn turn_log<R: Wait>(rt: &R, log: &mut Option<AlarmLog>)
    ensures { IsLogLater log.old log.new }
{
    if let Some(log) = log {
        log.turn(rt);
    }
}

impl<'a, R: Wait, K: ByteSink> SinkDuty<'a, R, K> {
    /// The duty of a worker, what it writes to, and the log of the lines, where they are watched.
    pub fn new(
        rt: &'a R,
        sink: SinkWorker,
        out: &'a mut K,
        log: Option<AlarmLog>,
    ) -> SinkDuty<'a, R, K>
        ensures sink { result.sink ≡ sink }
        ensures name { result.out.ghost_name ≡ out.entry.ghost_name }
        ensures now { result.out.now ≡ out.old }
        ensures log { result.log ≡ log }
    {
        SinkDuty { rt, sink, out, log }
    }

    /// The worker, what it has written to, and the log.
    pub(crate) fn into_parts(self) -> (SinkWorker, &'a mut K, Option<AlarmLog>)
        ensures sink { result.0 ≡ self.entry.sink }
        ensures name { result.1.ghost_name ≡ self.entry.out.ghost_name }
        ensures now { result.1.now ≡ self.entry.out.now }
        ensures log { result.2 ≡ self.entry.log }
    {
        let SinkDuty { sink, out, log, .. } = self;
        (sink, out, log)
    }
}

impl<'a, R: Wait, K: ByteSink> Duty for SinkDuty<'a, R, K> {
    ghost use Rattle.std.specs.Prelude.{◌≡◌, ◌+◌};
    ghost use Rattle.text_got.specs.TextSoFar.{seen};
    ghost use Rattle.thread_sink.specs.ReceivedByRings.{popped};
    ghost use Rattle.thread_sink.specs.WorkerOfSink.{cells_of, taken_of, ticks_of};
    ghost use Rattle.thread_session.specs.session_parts.Duty.{HasRun, IsLogLater};

    ghost stands_for = { λ duty begun. (duty.out.ghost_name ≡ begun.name)
        × HasRun begun duty.sink (seen (K.written duty.out.now) (K.faults duty.out.now))
        × IsLogLater begun.log duty.log };

    ghost is_over = { λ duty. taken_of duty.sink ≡ ticks_of duty.sink };

    ghost steps_done = { λ duty. taken_of duty.sink + popped (cells_of duty.sink) };

    fn turn(&mut self) -> Turned {
        turn_log(self.rt, &mut self.log);
        match self.sink.burst(self.out, &OpenGate) {
            SinkBurst::Moved => Turned::Moved,
            SinkBurst::Idle(_) => Turned::Waits,
            SinkBurst::Done => Turned::Over,
        }
    }
}
