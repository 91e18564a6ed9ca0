//! The last bursts of lines, and the ends of their rings beside each other.
ghost use Rattle.std.specs.Prelude.{◌≡◌, ◌↔◌, length, IsTrue, Contains};
ghost use Rattle.thread_rings.specs.EndsOfRing.{AreEnds, out_passed};
ghost use Rattle.thread_alarms.specs.watched_line.ServedWithPosts.{worker_of, IsServedLater, AreServedLater};
ghost use Rattle.thread_session.specs.session_parts.LineRingsLaid.{AreServedDone, AreSendEnds, AreReceiveEnds};
ghost use Rattle.thread_session.specs.session_parts.LineRingsLaid.{IsSendLaid, IsReceiveLaid};
ghost use Rattle.thread_session.specs.session_parts.LineRingsLaid.{AreSendsLaid, AreReceivesLaid};

use member_cells::{Cell, Container};
use std::sync::Wait;
use thread_alarms::watched_line::ServedLine;
use thread_rings::{Burst, Gate, LineWorker, RingIn, RingOut};

/// Makes a burst of a line, and says whether it had come to its end before.
fn carry_one<R: Wait, G: Gate>(rt: &R, worker: &mut ServedLine, gate: &G) -> bool
    ensures later { IsServedLater worker.old worker.new }
    ensures done { IsTrue result
        ↔ Contains (out_passed (worker_of worker.old).producer) Cell.End }
    ensures stays { IsTrue result → worker.new ≡ worker.old }
{
    match worker.burst(rt, gate) {
        Burst::Done => true,
        Burst::Moved | Burst::Idle(_) => false,
    }
}

/// Makes a burst of each line, and says whether all of them had come to their end before.
pub fn carry_all<R: Wait, G: Gate>(rt: &R, workers: &mut Vec<ServedLine>, gate: &G) -> bool
    ensures later { AreServedLater workers.old.items workers.new.items }
    ensures done { IsTrue result ↔ AreServedDone workers.old.items }
    ensures stays { IsTrue result → workers.new.items ≡ workers.old.items }
{
    let mut done = true;
    for worker in workers.iter_mut() {
        if !carry_one(rt, worker, gate) {
            done = false;
        }
    }
    done
}

/// Lays the ends of a send ring beside each other.
fn lay_send(out: &mut RingOut<Container>, worker: &mut LineWorker)
    requires { AreEnds out.old worker.old.consumer }
    ensures { IsSendLaid out.old worker.old out.new worker.new }
{
    worker.consumer.beside(out);
}

/// Lays the ends of a receive ring beside each other.
fn lay_receive(worker: &mut LineWorker, into: &mut RingIn<Cell>)
    requires { AreEnds worker.old.producer into.old }
    ensures { IsReceiveLaid worker.old into.old worker.new into.new }
{
    into.beside(&mut worker.producer);
}

/// Lays the ends of all send rings beside each other.
pub fn lay_sends(tx: &mut Vec<RingOut<Container>>, workers: &mut Vec<LineWorker>)
    requires count { length tx.old.items ≡ length workers.old.items }
    requires ends { AreSendEnds tx.old.items workers.old.items }
    ensures { AreSendsLaid tx.old.items workers.old.items tx.new.items workers.new.items }
{
    for m in 0..workers.len() {
        lay_send(&mut tx[m], &mut workers[m]);
    }
}

/// Lays the ends of all receive rings beside each other.
pub fn lay_receives(workers: &mut Vec<LineWorker>, rx: &mut Vec<RingIn<Cell>>)
    requires count { length rx.old.items ≡ length workers.old.items }
    requires ends { AreReceiveEnds workers.old.items rx.old.items }
    ensures { AreReceivesLaid workers.old.items rx.old.items workers.new.items rx.new.items }
{
    for m in 0..workers.len() {
        lay_receive(&mut workers[m], &mut rx[m]);
    }
}
