//! One step of the sink: a cell is popped, or a row taken.
ghost use Rattle.std.specs.Prelude.{◌≡◌, ◌+◌, ◌%◌, ◌<◌, ◌≤◌, ◌≢◌, ◌++◌, [], length, Some, None, IsTrue, IsFalse};
ghost use Rattle.law_model.specs.Common.{first_open, one_more};
ghost use Rattle.member_rows.specs.realign_rows.Gather.{line_count, IsOpenAt};
ghost use Rattle.thread_rings.specs.EndsOfRing.{out_passed, out_free, in_passed, in_items, in_misses, SameIn, SameOut};
ghost use Rattle.thread_sink.specs.ReceivedByRings.{received, back_cells, AreSameIns, Missed};
ghost use Rattle.thread_sink.specs.SinkParts.{parts, Keeps, Later, IsFull, Does, Gives};
ghost use Rattle.thread_sink.specs.Step.{PoppedCell, TookCell, packet_in};

use crate::burst_answers::{SinkBurst, SinkIdle};
use law_model::FrameOut;
use member_cells::{BackCell, Cell};
use member_rows::lcas_packet::Packet;
use member_rows::realign_rows::{RowAnswer, RowGather};
use terminal_sink::sink_core::{SinkCore, TakeAnswer};
use thread_rings::{CellPlace, RingIn, RingOut};

/// Pops the next cell of a line into `place`, if there is one, and offers it from there. Boxes change places, and
/// nothing is copied.
fn pass_cell(end: &mut RingIn<Cell>, place: &mut CellPlace, rows: &mut RowGather, line: u8) -> bool
    requires line { line < line_count rows.old }
    requires open { IsOpenAt rows.old line }
    ensures took { IsTrue result → PoppedCell end.old end.new rows.old rows.new line }
    ensures stays { IsFalse result → (in_passed end.new ≡ in_passed end.old)
        × (rows.new ≡ rows.old) }
    ensures missed { IsFalse result → (in_items end.old ≡ [])
        × (in_misses end.new ≡ one_more (in_misses end.old)) }
    ensures same { SameIn end.old end.new }
{
    if !end.ready() {
        return false;
    }
    end.pop_place(place);
    rows.offer(line, place.sign, &mut place.container);
    true
}

/// Pops the next cell of a line, which is open, if there is one in its ring.
fn take_cell(
    rx: &mut Vec<RingIn<Cell>>,
    place: &mut CellPlace,
    rows: &mut RowGather,
    line: u8,
) -> bool
    requires rings { length rx.old.items ≡ line_count rows.old }
    requires line { line < line_count rows.old }
    requires open { IsOpenAt rows.old line }
    ensures took { IsTrue result → TookCell rx.old.items rx.new.items rows.old rows.new line }
    ensures stays { IsFalse result →
        (received rx.new.items ≡ received rx.old.items) × (rows.new ≡ rows.old) }
    ensures missed { IsFalse result → Missed rx.old.items rx.new.items line }
    ensures same { AreSameIns rx.old.items rx.new.items }
{
    pass_cell(&mut rx[usize::from(line)], place, rows, line)
}

/// The return packet of an answer, if it has one.
fn packet_of(answer: TakeAnswer) -> Option<Packet>
    ensures { result ≡ packet_in answer }
{
    match answer {
        TakeAnswer::Taken { back } => back,
        TakeAnswer::Waiting { .. } => None,
    }
}

/// Sends a return packet, if there is one and there is a slot for it.
fn send_back(back: &mut RingOut<BackCell>, packet: Option<Packet>)
    ensures sent { length (back_cells packet) ≤ out_free back.old →
        out_passed back.new ≡ out_passed back.old ++ back_cells packet }
    ensures same { SameOut back.old back.new }
{
    if let Some(packet) = packet {
        if back.ready() {
            back.push(BackCell::Packet(packet.nibbles()));
        }
    }
}

/// Whether there is a slot for the return packet of a row, if it makes one.
fn has_room(back: &mut RingOut<BackCell>, t: u32) -> bool
    ensures room { IsTrue result → 22 < t → t % 16 ≡ 7 → 0 < out_free back.new }
    ensures full { IsFalse result → IsFull t back.old back.new }
    ensures same { SameOut back.old back.new }
    ensures passed { out_passed back.new ≡ out_passed back.old }
{
    if t > 22 && t % 16 == 7 {
        return back.ready();
    }
    true
}

/// Takes the next row, where it is decided on each line and there is room for the return packet that it makes.
fn take_decided_row<F: FrameOut>(
    rows: &mut RowGather,
    core: &mut SinkCore,
    rx: &[RingIn<Cell>],
    back: &mut RingOut<BackCell>,
    out: &mut F,
) -> bool
    requires lines { line_count rows.old ≡ core.old.lines }
    requires rows { rows.old.rows ≡ core.old.taken }
    requires few { core.old.taken < 4294967295 }
    ensures lines { line_count rows.new ≡ line_count rows.old }
    ensures rows { rows.new.rows ≡ core.new.taken }
    ensures same { (core.new.lines ≡ core.old.lines) × (core.new.size ≡ core.old.size)
        × (core.new.options ≡ core.old.options) }
    ensures least { core.old.taken ≤ core.new.taken }
    ensures most { core.new.taken ≤ core.old.taken + 1 }
    ensures ring { SameOut back.old back.new }
    ensures keeps { first_open (received rx.now) core.old.taken ≡ None →
        Keeps (parts rows.old core.old rx.now back.old) →
        Keeps (parts rows.new core.new rx.now back.new) }
    ensures taken { IsTrue result → first_open (received rx.now) core.old.taken ≡ None →
        Keeps (parts rows.old core.old rx.now back.old) → core.new.taken ≡ core.old.taken + 1 }
    ensures full { IsFalse result → IsFull core.old.taken back.old back.new }
    ensures stays { IsFalse result →
        (rows.new ≡ rows.old) × (core.new ≡ core.old) × (out.new ≡ out.old) }
    ensures gives { Keeps (parts rows.old core.old rx.now back.old) →
        Gives F.stands_for out.old out.new
        (parts rows.old core.old rx.now back.old) (parts rows.new core.new rx.now back.new) }
{
    let _ = rx;
    if !has_room(back, core.taken()) {
        return false;
    }
    let answer = core.take(rows, out);
    send_back(back, packet_of(answer));
    true
}

/// Pops a cell, or takes a row.
pub(crate) fn step<F: FrameOut>(
    rows: &mut RowGather,
    core: &mut SinkCore,
    rx: &mut Vec<RingIn<Cell>>,
    place: &mut CellPlace,
    back: &mut RingOut<BackCell>,
    out: &mut F,
) -> SinkBurst
    requires lines { line_count rows.old ≡ core.old.lines }
    requires rings { length rx.old.items ≡ core.old.lines }
    requires rows { rows.old.rows ≡ core.old.taken }
    requires few { core.old.taken < 4294967295 }
    ensures lines { line_count rows.new ≡ core.new.lines }
    ensures rings { length rx.new.items ≡ core.new.lines }
    ensures rows { rows.new.rows ≡ core.new.taken }
    ensures most { core.new.taken ≤ core.old.taken + 1 }
    ensures never { result ≢ SinkBurst.Done }
    ensures later { Later (parts rows.old core.old rx.old.items back.old)
        (parts rows.new core.new rx.new.items back.new) }
    ensures keeps { Keeps (parts rows.old core.old rx.old.items back.old) →
        Keeps (parts rows.new core.new rx.new.items back.new) }
    ensures does { Keeps (parts rows.old core.old rx.old.items back.old) →
        Does (parts rows.old core.old rx.old.items back.old)
        (parts rows.new core.new rx.new.items back.new) result }
    ensures gives { Keeps (parts rows.old core.old rx.old.items back.old) →
        Gives F.stands_for out.old out.new
        (parts rows.old core.old rx.old.items back.old)
        (parts rows.new core.new rx.new.items back.new) }
{
    match rows.row() {
        RowAnswer::Waiting { line } => {
            if take_cell(rx, place, rows, line) {
                SinkBurst::Moved
            } else {
                SinkBurst::Idle(SinkIdle::Waiting { line })
            }
        }
        RowAnswer::Row => {
            if take_decided_row(rows, core, rx, back, out) {
                SinkBurst::Moved
            } else {
                SinkBurst::Idle(SinkIdle::BackFull)
            }
        }
    }
}
