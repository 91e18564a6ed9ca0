//! The turns at the group, each under its lock. Client and operator hand in their items ahead, and the source lands
//! each of them at its due tick, and makes the frames.
ghost use Rattle.std.specs.Prelude.{◌≡◌, ℕ, ◌+◌, ◌≤◌, ◌<◌, ◌↔◌, not, true, false, Some, IfSome, IfNone};
ghost use Rattle.std.specs.Prelude.{if◌then◌else◌, length, slice_get};
ghost use Rattle.std.specs.Option.{is_some};
ghost use Rattle.law_model.specs.Common.{leg_of, refusal_in};
ghost use Rattle.law_model.specs.declared.script_types.Item.{Item};
ghost use Rattle.law_walk.specs.Common.{is_client};
ghost use Rattle.thread_group.specs.SubmitFaults.{has_landed};
ghost use Rattle.thread_group.specs.declared.group_answers.TickAnswer.TheVariants.{Held, Done};
ghost use Rattle.thread_group.specs.Group.{HasCounted, next_brought, ticks_of, total_of, held_of, is_ticked};
ghost use Rattle.thread_group.specs.HandedAhead.{handed_below};
ghost use Rattle.thread_session.specs.session_parts.Flags.{heeded};
ghost use Rattle.thread_session.specs.session_run.Turns.{bringer, brings, brings_frames};
ghost use Rattle.thread_session.specs.session_run.Turns.{handed_ahead, next_or_greatest};
ghost use Rattle.thread_session.specs.session_run.Turns.{HasLanded, MayLand};

use crate::session_parts::{Bell, Flag, Heed};
use crate::session_run::room_and_flags::Flags;
use law_model::{FrameRoom, ItemList, ItemSort};
use std::sync::{Mutex, OnceToken, Wait};
use terminal_group::lent_item;
use thread_group::{BoundGroup, Session, SubmitFault, TickAnswer};
use thread_rings::{Gate, Who};

/// So many numbers behind the next item of the client, or of the operator, its items are handed in ahead.
const AHEAD: u32 = 1024;

/// So many frames are made at most before the lock is given back and the lines are rung for.
const FRAMES: u32 = 8;

/// Who brings an item of this sort.
fn bringer_of(sort: ItemSort) -> Who
    ensures { result ≡ brings sort }
{
    match sort {
        ItemSort::Frame(_) => Who::Client,
        ItemSort::Add(_) | ItemSort::Remove(_) => Who::Operator,
    }
}

/// Who brings the item of this number.
pub(super) fn who_brings(items: &ItemList, number: u32) -> Who
    requires { number < length items.now }
    ensures { (item : Item) → slice_get items.now number ≡ Some item → result ≡ bringer item.kind }
{
    bringer_of(items.head(number).sort)
}

/// Whether an item has landed, by what the group answered.
fn has_landed(answer: Result<(), SubmitFault>) -> bool
    ensures { result ≡ has_landed (refusal_in answer) }
{
    match answer {
        Ok(()) | Err(SubmitFault::Frame(_) | SubmitFault::Command(_)) => true,
        Err(
            SubmitFault::NotNext { next: _ }
            | SubmitFault::Early { now: _ }
            | SubmitFault::JournalFull {
                entries: _,
                bytes: _,
            },
        ) => false,
    }
}

/// Submits the item of this number, and says whether it has landed. A frame that is drawn comes into the room.
pub(super) fn submit<Y: Session>(
    group: &mut BoundGroup<Y>,
    items: &ItemList,
    number: u32,
    room: &mut FrameRoom,
) -> bool
    requires items { items.now ≡ Y.script.items }
    requires number { number < length items.now }
    ensures counted { (item : Item) → slice_get items.now number ≡ Some item →
        HasCounted group.old.state group.new.state item.kind result }
    ensures when { (item : Item) → slice_get items.now number ≡ Some item →
        result ≡ true ↔ MayLand group.old.state number item.kind }
    ensures stays { result ≡ false → group.new.state ≡ group.old.state }
    ensures ticks { ticks_of group.new.state ≡ ticks_of group.old.state }
    ensures landed { (item : Item) → slice_get items.now number ≡ Some item →
        result ≡ true → HasLanded (leg_of Y.script) Y.tx Y.back number item.kind }
{
    let lent = items.lend(number, room);
    has_landed(group.submit(number, lent_item(lent, room)))
}

/// Below which number it is handed in ahead from this number on: so many numbers further, or the greatest number, where
/// no item is behind these.
fn ahead_of(items: &ItemList, from: u32) -> u32
    ensures { result ≡ handed_ahead (length items.now) from }
{
    if from >= items.len().saturating_sub(1 + AHEAD) {
        return u32::MAX;
    }
    from + 1 + AHEAD
}

/// Whether this one brings the frames of the client.
fn is_client(who: Who) -> bool
    ensures { result ≡ brings_frames who }
{
    match who {
        Who::Client => true,
        Who::Operator | Who::Source | Who::Line(_) | Who::Sink => false,
    }
}

/// Hands in ahead what this one brings, where what lands next isn't handed in, and gives the number below which it did.
/// Nothing lands by that, then what lands next is handed in, and of what the others bring as much as before.
fn hand_in_ahead<Y: Session>(group: &mut BoundGroup<Y>, who: Who, items: &ItemList) -> Option<u32>
    ensures state { group.new.state ≡ group.old.state }
    ensures when { is_some result ≡ true
        ↔ (handed_below group.old.handed (brings_frames who)
        ≤ next_or_greatest (next_brought group.old.state (brings_frames who))) }
    ensures below { IfSome result (λ below. below ≡ handed_ahead (length items.now)
        (next_or_greatest (next_brought group.old.state (brings_frames who)))) }
    ensures handed { IfSome result (λ below.
        handed_below group.new.handed (brings_frames who) ≡ below) }
    ensures none { IfNone result (group.new.handed ≡ group.old.handed) }
    ensures other { handed_below group.new.handed (not (brings_frames who))
        ≡ handed_below group.old.handed (not (brings_frames who)) }
    ensures next { (number : ℕ) → number < 4294967295 →
        next_brought group.old.state (brings_frames who) ≡ Some number →
        number < handed_below group.new.handed (brings_frames who) }
{
    let client = is_client(who);
    let next = group.landing().next(client).unwrap_or(u32::MAX);
    if group.is_handed_in(client, next) {
        return None;
    }
    let below = ahead_of(items, next);
    group.hand_in(client, below);
    Some(below)
}

/// Sleeps until the flag is stored, where all is handed in: nothing is left to bring.
fn rest<'s, R: Wait>(rt: &R, stop: Heed<'s>, below: u32) -> OnceToken<'s, ()>
    requires { below ≡ 4294967295 }
    ensures { result.of ≡ heeded stop.entry }
{
    let _ = below;
    stop.wait(rt)
}

/// Hands in the items of a script that this one brings, some ahead whenever it is rung for, and comes back once the
/// flag is stored.
pub(super) fn hand_in_all<'s, Y: Session, R: Wait, G: Gate>(
    rt: &R,
    gate: &G,
    lock: &Mutex<BoundGroup<Y>>,
    stop: Heed<'s>,
    source: &Bell,
    who: Who,
    items: &ItemList,
) -> OnceToken<'s, ()>
    ensures { result.of ≡ heeded stop.entry }
{
    for _ in rt.forever() {
        if let Some(told) = stop.note() {
            return told;
        }
        gate.pass(who);
        let handed = hand_in_ahead(&mut *lock.lock(rt), who, items);
        if let Some(below) = handed {
            gate.moved(who);
            source.ring();
            if below == u32::MAX {
                return rest(rt, stop, below);
            }
        }
        stop.bell().wait(rt);
    }
    unreachable!()
}

/// Lands an item, where it is handed in, the next of its kind and due. Says whether it has landed; if not, nothing
/// has changed.
fn land<Y: Session>(
    group: &mut BoundGroup<Y>,
    items: &ItemList,
    number: u32,
    room: &mut FrameRoom,
) -> bool
    requires items { items.now ≡ Y.script.items }
    requires number { number < length items.now }
    ensures landed { (item : Item) → slice_get items.now number ≡ Some item →
        result ≡ true → HasLanded (leg_of Y.script) Y.tx Y.back number item.kind }
    ensures handed { (item : Item) → slice_get items.now number ≡ Some item → result ≡ true
        ↔ (number < handed_below group.old.handed (is_client item.kind))
        × MayLand group.old.state number item.kind }
    ensures counted { (item : Item) → slice_get items.now number ≡ Some item →
        HasCounted group.old.state group.new.state item.kind result }
    ensures stays { result ≡ false → group.new.state ≡ group.old.state }
    ensures ticks { ticks_of group.new.state ≡ ticks_of group.old.state }
{
    let client = is_client(who_brings(items, number));
    if !group.is_handed_in(client, number) {
        return false;
    }
    submit(group, items, number, room)
}

/// Makes the next frame, where it can be made once the items have landed that hold it and are handed in.
fn make_frame<Y: Session>(
    group: &mut BoundGroup<Y>,
    items: &ItemList,
    room: &mut FrameRoom,
) -> TickAnswer
    requires { items.now ≡ Y.script.items }
    ensures made { ticks_of group.new.state
        ≡ ticks_of group.old.state + (if is_ticked result then 1 else 0) }
    ensures done { result ≡ Done → total_of group.new.state ≤ ticks_of group.new.state }
    ensures held { (item : ℕ) → result ≡ Held item → held_of group.new.state ≡ Some item }
{
    for _ in 0..items.len() {
        let answer = group.tick();
        let TickAnswer::Held { item } = answer else {
            return answer;
        };
        if item >= items.len() || !land(group, items, item, room) {
            return answer;
        }
    }
    group.tick()
}

/// Makes some frames, as long as they can be made. Says how many, and what became of the last try.
fn make_frames<Y: Session>(
    group: &mut BoundGroup<Y>,
    items: &ItemList,
    room: &mut FrameRoom,
) -> (u32, TickAnswer)
    requires { items.now ≡ Y.script.items }
    ensures made { ticks_of group.new.state ≡ ticks_of group.old.state + result.0 }
    ensures done { result.1 ≡ Done → total_of group.new.state ≤ ticks_of group.new.state }
    ensures held { (item : ℕ) → result.1 ≡ Held item → held_of group.new.state ≡ Some item }
{
    for made in 0..FRAMES {
        let answer = make_frame(group, items, room);
        if answer != TickAnswer::Ticked {
            return (made, answer);
        }
    }
    (FRAMES, TickAnswer::Ticked)
}

/// The flag of whoever brings an item.
fn bringer_flag(flags: &Flags, who: Who) -> &Flag
    ensures { result.now ≡ (if brings_frames who then flags.now.client else flags.now.operator) }
{
    if is_client(who) {
        &flags.client
    } else {
        &flags.operator
    }
}

/// Rings for whoever brings an item.
fn ring_for(flags: &Flags, items: &ItemList, number: u32) {
    if number < items.len() {
        bringer_flag(flags, who_brings(items, number)).bell.ring();
    }
}

/// Rings for those that go on with the frames that were made, and for those without whom no more were made; then it
/// waits for these.
fn go_on<R: Wait>(rt: &R, flags: &Flags, items: &ItemList, made: u32, answer: TickAnswer) {
    if made > 0 {
        flags.ring_for_lines();
    }
    match answer {
        TickAnswer::Ticked => {}
        TickAnswer::Held { item } => {
            ring_for(flags, items, item);
            flags.source.bell.wait(rt);
        }
        TickAnswer::Done | TickAnswer::TxFull { line: _ } | TickAnswer::BackMissing { packet: _ } =>
            {
                flags.ring_behind_source();
                flags.source.bell.wait_for_behind(rt);
            }
    }
}

/// Makes the frames one after another as they can be made, some in each turn, and comes back once the flag is stored.
/// After the last one return cells are still moved. A frame that is drawn comes into the room.
pub(super) fn tick_all<'s, Y: Session, R: Wait, G: Gate>(
    rt: &R,
    gate: &G,
    lock: &Mutex<BoundGroup<Y>>,
    stop: Heed<'s>,
    flags: &Flags,
    items: &ItemList,
    mut room: FrameRoom,
) -> OnceToken<'s, ()>
    requires { items.now ≡ Y.script.items }
    ensures { result.of ≡ heeded stop.entry }
{
    for _ in rt.forever() {
        if let Some(told) = stop.note() {
            return told;
        }
        gate.pass(Who::Source);
        let (made, answer) = make_frames(&mut *lock.lock(rt), items, &mut room);
        if made > 0 {
            gate.moved(Who::Source);
        }
        go_on(rt, flags, items, made, answer);
    }
    unreachable!()
}
