//! Line threads: each serves the workers of a share burst by burst, until its flag tells it to give them back.
ghost use Rattle.std.specs.Prelude.{◌≡◌, ℕ, ◌<◌, ◌≤◌, ◌↔◌, true, List, [], length, vec_len, vec_capacity};
ghost use Rattle.std.specs.Prelude.{IfNone};
ghost use Rattle.std.specs.Global.{Vec};
ghost use Rattle.thread_alarms.specs.declared.watched_line.served_line.ServedLine.{ServedLine};
ghost use Rattle.thread_alarms.specs.watched_line.ServedWithPosts.{AreServedLater, IsServedLater, worker_of};
ghost use Rattle.thread_rings.specs.WorkerOfLine.{carries_of};
ghost use Rattle.thread_session.specs.session_parts.LineRingsLaid.{IsServedDone, AreServedDone};
ghost use Rattle.thread_session.specs.session_parts.Bursts.{HasTried, AreTried, IsTriedHere, AreTriedHere};
ghost use Rattle.thread_session.specs.session_parts.Bursts.{carries_in, carries_here, all_carries_here};
ghost use Rattle.thread_session.specs.session_parts.ServedLines.{SharesLater};
ghost use Rattle.thread_session.specs.declared.session_parts.stop_flag.Flag.{Flag as OwnFlag};
ghost use Rattle.thread_session.specs.session_parts.Flags.{flag_of, heeded, stored_flag};
ghost use Rattle.thread_session.specs.session_parts.HeldShares.{IsHeldOf, AreHeldOf, IsToldBy, AreToldBy};

use crate::session_parts::stop_flag::{Flag, Heed, Stored};
use crate::session_parts::thread_bell::Bell;
use std::snapshot::Snapshot;
use std::sync::{OnceToken, Wait};
use std::thread::{Promise, PromisedHandle, Scope, Threads};
use thread_alarms::watched_line::ServedLine;
use thread_rings::{Burst, Gate, IdleCause};

/// What a line thread gives back: its workers, and evidence that its flag was stored.
type Back = (Vec<ServedLine>, Stored);

/// What a line thread promises: it gives back the workers that it was given, each later, with evidence that this
/// flag was stored.
#[derive(Drop)]
pub struct Kept(Snapshot<Vec<ServedLine>>, Snapshot<Flag>);

impl Promise<Back> for Kept {
    ghost use Rattle.std.specs.Prelude.{◌≡◌};
    ghost use Rattle.thread_alarms.specs.watched_line.ServedWithPosts.{AreServedLater};
    ghost use Rattle.thread_session.specs.session_parts.Flags.{flag_of, stored_flag};

    ghost kept_by = { λ kept back. AreServedLater kept.0.value.items back.0.items
        × (stored_flag back.1 ≡ flag_of kept.1.value) };
}

/// The workers of a share.
#[derive(Drop)]
pub enum Held {
    /// A thread serves them.
    There(PromisedHandle<Back, Kept>),
    /// No thread could be started for them.
    Here(Vec<ServedLine>),
}

/// What came of bursts.
#[derive(Clone, Copy, Debug, PartialEq, Eq)]
enum Served {
    /// One moved.
    Moved,
    /// None moved, and one found no slot for a cell.
    Full,
    /// None moved or found no slot, and one found no container, or wasn't made.
    Empty,
    /// All had come to their end before.
    Done,
}

impl Served {
    ghost use Rattle.std.specs.Prelude.{◌≡◌, ◌↔◌, ◌⊎◌};

    /// What came of these and others.
    fn and(self, other: Served) -> Served
        ensures moved { (result ≡ Served.Moved) ↔ (self ≡ Served.Moved) ⊎ (other ≡ Served.Moved) }
        ensures done { (result ≡ Served.Done) ↔ (self ≡ Served.Done) × (other ≡ Served.Done) }
    {
        match (self, other) {
            (Served::Moved, _) | (_, Served::Moved) => Served::Moved,
            (Served::Full, _) | (_, Served::Full) => Served::Full,
            (Served::Empty, _) | (_, Served::Empty) => Served::Empty,
            (Served::Done, Served::Done) => Served::Done,
        }
    }
}

/// Makes a burst of a line, but not where its flag is stored. Says what came of it.
fn serve_one<R: Wait, G: Gate>(
    rt: &R,
    worker: &mut ServedLine,
    gate: &G,
    stop: Option<Heed<'_>>,
) -> Served
    ensures later { IsServedLater worker.old worker.new }
    ensures done { result ≡ Served.Done → IsServedDone worker.new }
    ensures moved { (result ≡ Served.Moved)
        ↔ (carries_of (worker_of worker.old) < carries_of (worker_of worker.new)) }
    ensures tried { IfNone stop.entry (HasTried worker.old worker.new) }
{
    if let Some(stop) = stop {
        if stop.told().is_some() {
            return Served::Empty;
        }
    }
    match worker.burst(rt, gate) {
        Burst::Moved => Served::Moved,
        Burst::Idle(IdleCause::Full) => Served::Full,
        Burst::Idle(IdleCause::Empty) => Served::Empty,
        Burst::Done => Served::Done,
    }
}

/// Makes a burst of each line, as long as no flag is stored, and says what came of them.
fn serve_once<R: Wait, G: Gate>(
    rt: &R,
    workers: &mut Vec<ServedLine>,
    gate: &G,
    stop: Option<Heed<'_>>,
) -> Served
    ensures later { AreServedLater workers.old.items workers.new.items }
    ensures done { result ≡ Served.Done → AreServedDone workers.new.items }
    ensures moved { (result ≡ Served.Moved)
        ↔ (carries_in workers.old.items < carries_in workers.new.items) }
    ensures rises { carries_in workers.old.items ≤ carries_in workers.new.items }
    ensures tried { IfNone stop.entry (AreTried workers.old.items workers.new.items) }
{
    let mut served = Served::Done;
    for worker in workers.iter_mut() {
        served = served.and(serve_one(rt, worker, gate, stop));
    }
    served
}

/// Rings for the sink and the source after bursts of which one moved; where none did, waits for who can change that.
fn go_on<R: Wait>(rt: &R, bell: &Bell, source: &Bell, sink: &Bell, served: Served) {
    match served {
        Served::Moved => {
            sink.ring();
            source.ring_from_behind();
        }
        Served::Full => bell.wait_for_behind(rt),
        Served::Empty | Served::Done => bell.wait(rt),
    }
}

/// Sleeps until the flag is stored, where all lines have come to their end: nothing is left to serve.
fn rest<'s, R: Wait>(rt: &R, stop: Heed<'s>, workers: &[ServedLine]) -> OnceToken<'s, ()>
    requires { AreServedDone workers.now }
    ensures { result.of ≡ heeded stop.entry }
{
    let _ = workers;
    stop.wait(rt)
}

/// Serves workers until the flag is stored, and gives the evidence that it is. Once all have come to their
/// end it sleeps until then.
fn serve<'s, R: Wait, G: Gate>(
    rt: &R,
    gate: &G,
    stop: Heed<'s>,
    source: &Bell,
    sink: &Bell,
    workers: &mut Vec<ServedLine>,
) -> OnceToken<'s, ()>
    ensures told { result.of ≡ heeded stop.entry }
    ensures later { AreServedLater workers.old.items workers.new.items }
{
    for _ in rt.forever() {
        if let Some(told) = stop.note() {
            return told;
        }
        let served = serve_once(rt, workers, gate, Some(stop));
        if served == Served::Done {
            return rest(rt, stop, workers.as_slice());
        }
        go_on(rt, stop.bell(), source, sink, served);
    }
    unreachable!()
}

/// Serves workers until the flag is stored, and gives them back with the evidence that it is.
fn serve_own<R: Wait, G: Gate>(
    rt: &R,
    gate: &G,
    stop: Heed<'_>,
    source: &Bell,
    sink: &Bell,
    workers: Vec<ServedLine>,
) -> Back
    ensures later { AreServedLater workers.items result.0.items }
    ensures stored { stored_flag result.1 ≡ heeded stop.entry }
{
    let mut own = workers;
    let told = serve(rt, gate, stop, source, sink, &mut own);
    let stored = stop.stored(&told);
    (own, stored)
}

/// What a line thread does: it serves workers by what it has of its flag.
fn serve_until<R: Wait, G: Gate>(
    rt: &R,
    gate: &G,
    flag: &Flag,
    source: &Bell,
    sink: &Bell,
    workers: Vec<ServedLine>,
) -> Back
    ensures { AreServedLater workers.items result.0.items
        × (stored_flag result.1 ≡ flag_of flag.now) }
{
    serve_own(rt, gate, flag.heed(), source, sink, workers)
}

/// Starts the thread of a share. Where it can't be started its flag is stored, and the workers stay here.
fn start_share<'s, 'e, R: Wait + Sync, G: Gate>(
    scope: &'s Scope<'s, &'e ()>,
    rt: &'s R,
    gate: &'s G,
    flag: &'s Flag,
    source: &'s Bell,
    sink: &'s Bell,
    workers: Vec<ServedLine>,
) -> Held
    ensures held { IsHeldOf workers.items result }
    ensures told { IsToldBy (flag_of flag.now) result }
{
    match scope.spawn_with(
        Kept(Snapshot::of(&workers), Snapshot::of(flag)),
        move || serve_until(rt, gate, flag, source, sink, workers),
    ) {
        Ok(child) => Held::There(child),
        Err(refused) => {
            flag.store(rt);
            let (workers, _) = (refused.value)();
            Held::Here(workers)
        }
    }
}

/// Starts the threads of all shares, each of which looks at a flag of its own. They ring for
/// the source and the sink.
pub fn start_shares<'s, 'e, R: Wait + Sync, G: Gate>(
    scope: &'s Scope<'s, &'e ()>,
    rt: &'s R,
    gate: &'s G,
    flags: &'s [Flag],
    source: &'s Bell,
    sink: &'s Bell,
    shares: Vec<Vec<ServedLine>>,
    room: Vec<Held>,
) -> Vec<Held>
    requires flags { vec_len shares ≤ length flags.now }
    requires room { (room.items ≡ []) × (vec_len shares ≤ vec_capacity room) }
    ensures held { AreHeldOf shares.items result.items }
    ensures told { AreToldBy flags.now result.items }
{
    let mut held = room;
    for workers in shares {
        let flag = &flags[held.len()];
        held.push_reserved(start_share(scope, rt, gate, flag, source, sink, workers));
    }
    held
}

/// Makes a burst of each worker of a share that no thread serves. Says whether one carried.
fn serve_here<R: Wait, G: Gate>(rt: &R, held: &mut Held, gate: &G) -> bool
    ensures held { (workers : List ServedLine) → IsHeldOf workers held.old →
        IsHeldOf workers held.new }
    ensures told { (flag : ℕ) → IsToldBy flag held.old → IsToldBy flag held.new }
    ensures tried { IsTriedHere held.old held.new }
    ensures moved { result ≡ true ↔ (carries_here held.old < carries_here held.new) }
    ensures rises { carries_here held.old ≤ carries_here held.new }
{
    match held {
        Held::There(_) => false,
        Held::Here(workers) => serve_once(rt, workers, gate, None) == Served::Moved,
    }
}

/// Makes a burst of each worker that no thread serves. Says whether one carried.
pub fn serve_all_here<R: Wait, G: Gate>(rt: &R, held: &mut Vec<Held>, gate: &G) -> bool
    ensures held { (shares : List (Vec ServedLine)) → AreHeldOf shares held.old.items →
        AreHeldOf shares held.new.items }
    ensures told { (flags : List OwnFlag) → AreToldBy flags held.old.items →
        AreToldBy flags held.new.items }
    ensures tried { AreTriedHere held.old.items held.new.items }
    ensures moved { result ≡ true
        ↔ (all_carries_here held.old.items < all_carries_here held.new.items) }
{
    let mut moved = false;
    for share in held.iter_mut() {
        moved |= serve_here(rt, share, gate);
    }
    moved
}

/// The workers of a share, once its thread has ended. It is waited for with the evidence that its flag is stored.
fn take_back<R: Threads>(rt: &R, held: Held, stored: &OnceToken<'_, ()>) -> Vec<ServedLine>
    requires { IsToldBy stored.now.of held }
    ensures { (workers : List ServedLine) → IsHeldOf workers held →
        AreServedLater workers result.items }
{
    match held {
        Held::There(child) => {
            let (workers, _) = child.join(rt);
            workers
        }
        Held::Here(workers) => workers,
    }
}

/// The workers of all shares, once their threads have ended. Each flag is stored before its thread is waited for.
pub fn take_all_back<R: Threads + Wait>(
    rt: &R,
    flags: &[Flag],
    held: Vec<Held>,
    room: Vec<Vec<ServedLine>>,
) -> Vec<Vec<ServedLine>>
    requires room { (room.items ≡ []) × (vec_len held ≤ vec_capacity room) }
    requires flags { vec_len held ≤ length flags.now }
    requires told { AreToldBy flags.now held.items }
    ensures { (shares : List (Vec ServedLine)) → AreHeldOf shares held.items →
        SharesLater shares result.items }
{
    let mut shares = room;
    for share in held {
        let stored = flags[shares.len()].store(rt);
        shares.push_reserved(take_back(rt, share, &stored));
    }
    shares
}
