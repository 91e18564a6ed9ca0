//! All threads of a session beside each other.
ghost use Rattle.std.specs.Prelude.{◌≡◌, ◌<◌, ◌≤◌, ◌⊎◌, ◌↔◌, List, [], length, vec_len, IfSome, IsTrue, vec_capacity};
ghost use Rattle.std.specs.Global.{Vec};
ghost use Rattle.thread_alarms.specs.declared.watched_line.served_line.ServedLine.{ServedLine};
ghost use Rattle.thread_session.specs.session_parts.Duty.{Begun};
ghost use Rattle.thread_session.specs.declared.session_parts.stop_flag.Flag.{Flag as OwnFlag};
ghost use Rattle.thread_session.specs.session_parts.Flags.{flag_of, heeded, comes_by};
ghost use Rattle.thread_session.specs.session_parts.HeldShares.{AreHeldOf, AreToldBy};
ghost use Rattle.thread_session.specs.session_parts.Bursts.{AreTriedHere, all_carries_here};
ghost use Rattle.thread_session.specs.session_parts.ServedLines.{SharesLater, AreNumbered};
ghost use Rattle.thread_alarms.specs.watched_line.ServedWithPosts.{AreServedLater};
ghost use Rattle.thread_session.specs.session_run.RoomForThreads.{HasRoomFor};

use crate::session_parts::{
    Bell, Comes, Duty, Flag, Held, Turned, collect, deal, serve_all_here, start_shares,
    take_all_back,
};
use crate::session_run::group_turns::{hand_in_all, tick_all};
use crate::session_run::room_and_flags::{Flags, Room};
use law_model::{FrameRoom, ItemList};
use std::sync::{Mutex, OnceToken, Wait};
use std::thread;
use std::thread::{PromisedHandle, Scope, Threads};
use thread_alarms::watched_line::ServedLine;
use thread_group::{BoundGroup, Session};
use thread_rings::{Gate, Who};

/// A thread that comes back with evidence that its flag was stored.
type Child<'s> = PromisedHandle<OnceToken<'s, ()>, Comes>;

/// Starts a thread that hands in the items that this one brings; none where it can't be started.
fn start_bringing<'s, 'e, Y: Session, R: Wait + Sync, G: Gate>(
    scope: &'s Scope<'s, &'e ()>,
    rt: &'s R,
    gate: &'s G,
    lock: &'s Mutex<BoundGroup<Y>>,
    flag: &'s Flag,
    source: &'s Bell,
    who: Who,
    items: &'s ItemList,
) -> Option<Child<'s>>
    ensures { IfSome result (λ child. comes_by child.promise ≡ flag_of flag.now) }
{
    let stop = flag.heed();
    let work = move || -> OnceToken<'_, ()>
        ensures { result.of ≡ heeded stop.entry }
    { hand_in_all::<Y, R, G>(rt, gate, lock, stop, source, who, items) };
    scope.spawn_with(Comes::by(flag), work).ok()
}

/// Starts the thread of the source; none where it can't be started.
fn start_source<'s, 'e, Y: Session, R: Wait + Sync, G: Gate>(
    scope: &'s Scope<'s, &'e ()>,
    rt: &'s R,
    gate: &'s G,
    lock: &'s Mutex<BoundGroup<Y>>,
    flags: &'s Flags,
    items: &'s ItemList,
    room: FrameRoom,
) -> Option<Child<'s>>
    requires { items.now ≡ Y.script.items }
    ensures { IfSome result (λ child. comes_by child.promise ≡ flag_of flags.now.source) }
{
    let work = move || -> OnceToken<'_, ()>
        requires { items.now ≡ Y.script.items }
        ensures { result.of ≡ flag_of flags.entry.now.source }
    { tick_all::<Y, R, G>(rt, gate, lock, flags.source.heed(), flags, items, room) };
    scope.spawn_with(Comes::by(&flags.source), work).ok()
}

/// Waits until a thread has ended, where it was started, with the evidence that its flag is stored. All that the thread
/// gives back is such evidence. Its scope waits for it too, so this says no more than that nobody waits in vain.
fn join_started<'s, R: Threads>(rt: &R, child: Option<Child<'s>>, stored: &OnceToken<'s, ()>)
    requires { IfSome child (λ child. comes_by child.promise ≡ stored.now.of) }
{
    if let Some(child) = child {
        child.join(rt).agrees(stored);
    }
}

/// Makes a burst of each worker that no thread serves, and then a turn of the duty. Where the duty isn't over, it has
/// moved exactly where one of these did.
fn turn_here<R: Wait, G: Gate, D: Duty>(
    rt: &R,
    gate: &G,
    duty: &mut D,
    held: &mut Vec<Held>,
) -> Turned
    ensures duty { (begun : Begun) → D.stands_for duty.old begun → D.stands_for duty.new begun }
    ensures over { (result ≡ Turned.Over) ↔ D.is_over duty.old }
    ensures stays { D.is_over duty.old → D.is_over duty.new }
    ensures told { (flags : List OwnFlag) → AreToldBy flags held.old.items →
        AreToldBy flags held.new.items }
    ensures held { (shares : List (Vec ServedLine)) → AreHeldOf shares held.old.items →
        AreHeldOf shares held.new.items }
    ensures tried { AreTriedHere held.old.items held.new.items }
    ensures waits { result ≡ Turned.Waits →
        all_carries_here held.new.items ≤ all_carries_here held.old.items }
    ensures rests { (begun : Begun) → D.stands_for duty.old begun → result ≡ Turned.Waits →
        D.steps_done duty.new ≡ D.steps_done duty.old }
    ensures moved { (begun : Begun) → D.stands_for duty.old begun → result ≡ Turned.Moved →
        (all_carries_here held.old.items < all_carries_here held.new.items)
        ⊎ (D.steps_done duty.old < D.steps_done duty.new) }
{
    let carried = serve_all_here(rt, held, gate);
    gate.pass(Who::Sink);
    match duty.turn() {
        Turned::Waits if carried => Turned::Moved,
        turned => turned,
    }
}

/// Does a duty until nothing is left of it, and before each turn what has no thread. Not at all where this
/// isn't wanted. Others are waited for after a turn that found nothing to do, where no line that has no thread
/// has carried before it.
fn attend<R: Wait, G: Gate, D: Duty>(
    rt: &R,
    gate: &G,
    flags: &Flags,
    wanted: bool,
    duty: D,
    held: Vec<Held>,
) -> (D, Vec<Held>)
    ensures duty { (begun : Begun) → D.stands_for duty begun → D.stands_for result.0 begun }
    ensures over { IsTrue wanted → D.is_over result.0 }
    ensures told { (flags : List OwnFlag) → AreToldBy flags held.items →
        AreToldBy flags result.1.items }
    ensures held { (shares : List (Vec ServedLine)) → AreHeldOf shares held.items →
        AreHeldOf shares result.1.items }
{
    let mut duty = duty;
    let mut held = held;
    if !wanted {
        return (duty, held);
    }
    for _ in rt.forever() {
        flags.sink.note();
        match turn_here(rt, gate, &mut duty, &mut held) {
            Turned::Over => return (duty, held),
            Turned::Moved => {
                gate.moved(Who::Sink);
                flags.ring_around_sink();
            }
            Turned::Waits => flags.sink.wait(rt),
        }
    }
    unreachable!()
}

/// Runs the client, the operator, the source and the shares of the lines on threads, and the duty here. Where
/// one of the first three can't be started, the others are stopped at once.
fn shares_beside<'x, Y: Session, R: Threads + Wait + Sync, G: Gate, D: Duty>(
    rt: &'x R,
    gate: &'x G,
    lock: &'x Mutex<BoundGroup<Y>>,
    flags: &'x Flags,
    items: &'x ItemList,
    room: FrameRoom,
    shares: Vec<Vec<ServedLine>>,
    held_room: Vec<Held>,
    back_room: Vec<Vec<ServedLine>>,
    duty: D,
) -> (Vec<Vec<ServedLine>>, D)
    requires items { items.now ≡ Y.script.items }
    requires flags { vec_len shares ≤ vec_len flags.now.lines }
    requires held { (held_room.items ≡ []) × (vec_len shares ≤ vec_capacity held_room) }
    requires back { (back_room.items ≡ []) × (vec_len shares ≤ vec_capacity back_room) }
    ensures shares { SharesLater shares.items result.0.items }
    ensures duty { (begun : Begun) → D.stands_for duty begun → D.stands_for result.1 begun }
{
    let lines = flags.lines.as_slice();
    thread::scope(
        thread::scope_env(),
        rt,
        |scope| -> (Vec<Vec<ServedLine>>, D)
            requires items { items.now ≡ Y.script.items }
            requires flags { vec_len shares ≤ length lines.now }
            requires held { (held_room.items ≡ []) × (vec_len shares ≤ vec_capacity held_room) }
            requires back { (back_room.items ≡ []) × (vec_len shares ≤ vec_capacity back_room) }
            ensures shares { SharesLater shares.items result.0.items }
            ensures duty { (begun : Begun) → D.stands_for duty begun →
                D.stands_for result.1 begun }
        {
            let client = start_bringing::<Y, R, G>(
                scope,
                rt,
                gate,
                lock,
                &flags.client,
                &flags.source.bell,
                Who::Client,
                items,
            );
            let operator = start_bringing::<Y, R, G>(
                scope,
                rt,
                gate,
                lock,
                &flags.operator,
                &flags.source.bell,
                Who::Operator,
                items,
            );
            let source = start_source::<Y, R, G>(scope, rt, gate, lock, flags, items, room);
            let held = start_shares(
                scope,
                rt,
                gate,
                lines,
                &flags.source.bell,
                &flags.sink,
                shares,
                held_room,
            );
            let started = client.is_some() && operator.is_some() && source.is_some();
            let (duty, held) = attend(rt, gate, flags, started, duty, held);
            flags.store_all(rt);
            let back = take_all_back(rt, lines, held, back_room);
            join_started(rt, client, &flags.client.store(rt));
            join_started(rt, operator, &flags.operator.store(rt));
            join_started(rt, source, &flags.source.store(rt));
            (back, duty)
        },
    )
}

/// Runs the client, the operator, the source and all lines on threads, and the duty here, as long as there is
/// something left of it.
pub(super) fn lines_beside<Y: Session, R: Threads + Wait + Sync, G: Gate, D: Duty>(
    rt: &R,
    gate: &G,
    lock: &Mutex<BoundGroup<Y>>,
    flags: &Flags,
    items: &ItemList,
    lines: Vec<ServedLine>,
    room: Room,
    duty: D,
) -> (Vec<ServedLine>, D)
    requires items { items.now ≡ Y.script.items }
    requires numbers { AreNumbered 0 lines.items }
    requires room { HasRoomFor (vec_len lines) (vec_len flags.now.lines) room }
    ensures lines { AreServedLater lines.items result.0.items }
    ensures duty { (begun : Begun) → D.stands_for duty begun → D.stands_for result.1 begun }
{
    let Room {
        shares,
        held,
        back,
        lines: place,
        frame,
    } = room;
    let count = lines.len();
    let shares = deal(lines, shares);
    let (shares, duty) = shares_beside::<Y, R, G, D>(
        rt, gate, lock, flags, items, frame, shares, held, back, duty,
    );
    (collect(shares, count, place), duty)
}
