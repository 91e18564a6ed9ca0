//! What the calling thread goes on with once all others have ended: whatever isn't done, in turn.
ghost use Rattle.std.specs.Prelude.{◌≡◌, ℕ, ◌≤◌, ◌↔◌, true, false, Some, slice_get};
ghost use Rattle.law_model.specs.declared.script_types.Item.{Item};
ghost use Rattle.text_got.specs.TextSoFar.{seen};
ghost use Rattle.thread_group.specs.Group.{ticks_of, total_of, held_of, IsFreeToTick, HasCounted};
ghost use Rattle.thread_session.specs.session_parts.Duty.{Begun, HasRun};
ghost use Rattle.thread_alarms.specs.watched_line.ServedWithPosts.{AreServedLater};
ghost use Rattle.thread_session.specs.session_run.SessionOfScript.{IsAllDone};
ghost use Rattle.thread_session.specs.session_run.Turns.{HasTried, MayLand};

use crate::session_parts::carry_all;
use crate::session_run::group_turns::{submit, who_brings};
use law_model::{FrameRoom, ItemList};
use octet_io::ByteSink;
use std::sync::Wait;
use thread_alarms::watched_line::ServedLine;
use thread_group::{BoundGroup, Session, TickAnswer};
use thread_rings::{Gate, Who};
use thread_sink::{SinkBurst, SinkWorker};

/// Makes the next frame where it can be made, or else lands the item that holds it. Says whether all were made before.
fn tick_or_land<Y: Session, G: Gate>(
    gate: &G,
    group: &mut BoundGroup<Y>,
    items: &ItemList,
    room: &mut FrameRoom,
) -> bool
    requires items { items.now ≡ Y.script.items }
    ensures done { result ≡ true ↔ (total_of group.old.state ≤ ticks_of group.old.state) }
    ensures stays { result ≡ true → total_of group.new.state ≤ ticks_of group.new.state }
    ensures goes { IsFreeToTick group.old.state → HasTried group.old.state group.new.state }
    ensures lands { (number : ℕ) (item : Item) → result ≡ false →
        held_of group.old.state ≡ Some number →
        slice_get items.now number ≡ Some item → MayLand group.old.state number item.kind →
        HasCounted group.old.state group.new.state item.kind true }
{
    gate.pass(Who::Source);
    match group.tick() {
        TickAnswer::Done => return true,
        TickAnswer::Ticked => gate.moved(Who::Source),
        TickAnswer::Held { item } => land_held::<Y, G>(gate, group, items, item, room),
        TickAnswer::TxFull { line: _ } | TickAnswer::BackMissing { packet: _ } => {}
    }
    false
}

/// Lands an item that holds a tick.
fn land_held<Y: Session, G: Gate>(
    gate: &G,
    group: &mut BoundGroup<Y>,
    items: &ItemList,
    number: u32,
    room: &mut FrameRoom,
)
    requires items { items.now ≡ Y.script.items }
    ensures landed { (item : Item) → slice_get items.now number ≡ Some item →
        MayLand group.old.state number item.kind →
        HasCounted group.old.state group.new.state item.kind true }
{
    if number < items.len() {
        let who = who_brings(items, number);
        gate.pass(who);
        if submit(group, items, number, room) {
            gate.moved(who);
        }
    }
}

/// Makes a turn of each: of the source or of who holds it, of the lines and of the sink. Says whether all was
/// done before.
fn round<Y: Session, R: Wait, K: ByteSink, G: Gate>(
    rt: &R,
    gate: &G,
    items: &ItemList,
    room: &mut FrameRoom,
    group: &mut BoundGroup<Y>,
    lines: &mut Vec<ServedLine>,
    sink: &mut SinkWorker,
    out: &mut K,
) -> bool
    requires { items.now ≡ Y.script.items }
    ensures done { result ≡ true ↔ IsAllDone group.old.state lines.old.items sink.old }
    ensures stays { result ≡ true → IsAllDone group.new.state lines.new.items sink.new }
    ensures lines { AreServedLater lines.old.items lines.new.items }
    ensures run { (begun : Begun) →
        HasRun begun sink.old (seen (K.written out.old) (K.faults out.old)) →
        HasRun begun sink.new (seen (K.written out.new) (K.faults out.new)) }
{
    let made = tick_or_land::<Y, G>(gate, group, items, room);
    let carried = carry_all(rt, lines, gate);
    let taken = sink.burst(out, gate) == SinkBurst::Done;
    made && carried && taken
}

/// Makes rounds until all frames are made, all lines have come to their end and all rows are taken. A frame that is
/// drawn comes into the room.
pub(super) fn finish<Y: Session, R: Wait, K: ByteSink, G: Gate>(
    rt: &R,
    gate: &G,
    items: &ItemList,
    room: &mut FrameRoom,
    group: &mut BoundGroup<Y>,
    lines: &mut Vec<ServedLine>,
    sink: &mut SinkWorker,
    out: &mut K,
)
    requires items { items.now ≡ Y.script.items }
    ensures done { IsAllDone group.new.state lines.new.items sink.new }
    ensures lines { AreServedLater lines.old.items lines.new.items }
    ensures run { (begun : Begun) →
        HasRun begun sink.old (seen (K.written out.old) (K.faults out.old)) →
        HasRun begun sink.new (seen (K.written out.new) (K.faults out.new)) }
{
    for _ in rt.forever() {
        if round::<Y, R, K, G>(rt, gate, items, room, group, lines, sink, out) {
            return;
        }
    }
    unreachable!()
}
