//! Where the two ways meet: a tick of both, and a row of one of them, whose packets the other one hears.

ghost use Rattle.std.specs.Prelude.{◌≡◌, Some, None, option_map};
ghost use Rattle.law_model.specs.Common.{leader, told_by, told_in};
ghost use Rattle.walk_engine.specs.Common.{GivesRows};
ghost use Rattle.law_model.specs.declared.script_types.Script.{Script};
ghost use Rattle.law_pair.specs.Common.{first_way, tick_by, tick_cause, pair_plan, way_of};
ghost use Rattle.pair_engine.specs.LivePairs.{GoesOn, IsLivePair, LiveBeside, PairLives, WayWalking, walking_counts};
ghost use Rattle.pair_engine.specs.ToldAndHeard.{IsSaid};
ghost use Rattle.pair_engine.specs.WayCalls.{CanTickBoth, EndsPacket, Hears, Keeps, TakesRow, late_cause};
ghost use Rattle.pair_engine.specs.Ways.{IsPairWalk, pair_counts, walking_both, walking_of};

use crate::live_way::{LiveWay, next_note};
use crate::pair_way::PairWay;
use law_model::{FrameOut, StallCause};
use law_pair::Way;
use member_cells::BackCell;
use member_rows::lcas_packet::Packet;
use terminal_sink::sink_core::TakeAnswer;
use walk_engine::walk_core::Moved;

/// Why no frame is made, and in which way: a cause of the way there comes before the same one of the way back.
pub(crate) fn tick_stall(there: &PairWay, back: &PairWay) -> Option<(Way, StallCause)>
    requires { IsPairWalk there.now back.now }
    ensures { result ≡ tick_cause (pair_plan there.now.script back.now.script)
        (pair_counts there.now back.now) }
{
    if let Some(cause) = first_way(there.done(), back.done()) {
        return Some(cause);
    }
    if let Some(cause) = first_way(there.held(), back.held()) {
        return Some(cause);
    }
    live_stall(&there.live, &back.live)
}

/// Why no frame is made, and in which way, where ticks are left and nothing is held.
pub(crate) fn live_stall(there: &LiveWay, back: &LiveWay) -> Option<(Way, StallCause)>
    requires { IsLivePair (walking_both there.now back.now) }
    ensures { (one other : Script) → PairLives one other (walking_both there.now back.now) →
        result ≡ late_cause (pair_plan one other)
        (walking_counts (walking_both there.now back.now)) }
{
    if let Some(cause) = first_way(there.full(), back.full()) {
        return Some(cause);
    }
    first_way(there.unsaid(), back.unsaid())
}

/// The cause of the way there, or else that of the way back.
fn first_way(there: Option<StallCause>, back: Option<StallCause>) -> Option<(Way, StallCause)>
    ensures { result ≡ first_way there back }
{
    match (there, back) {
        (Some(cause), _) => Some((Way::There, cause)),
        (None, Some(cause)) => Some((Way::Back, cause)),
        (None, None) => None,
    }
}

/// Makes the next frame of both ways. Where a packet begins with it, each way tells what was said of the other one, and
/// notes the decision step that its source made.
pub(crate) fn tick_both(there: &mut LiveWay, back: &mut LiveWay)
    requires { (one : Script) × (other : Script)
        × CanTickBoth one other (walking_both there.old back.old) }
    ensures ticks { (one other : Script) →
        CanTickBoth one other (walking_both there.old back.old) →
        GoesOn one other (tick_by None (walking_counts (walking_both there.old back.old))).counts
        (walking_both there.new back.new) }
    ensures there { Keeps (walking_of there.old) (walking_of there.new) }
    ensures back { Keeps (walking_of back.old) (walking_of back.new) }
{
    let of_there = there.tell_next();
    let of_back = back.tell_next();
    let ticks = there.core.source().core().ticks();
    let there_took = there.core.make(of_back);
    there.last = next_note(ticks, there_took, there.last);
    let ticks = back.core.source().core().ticks();
    let back_took = back.core.make(of_there);
    back.last = next_note(ticks, back_took, back.last);
}

/// Takes the next row of a way, where its lines decide it. What is said then waits to be told by the other way; and
/// where a packet row ends with it, the source of the other way hears what its packets tell.
pub(crate) fn take_way_row<F: FrameOut>(
    own: &mut LiveWay,
    other: &mut LiveWay,
    out: &mut F,
) -> Moved
    requires { (script : Script) × (beside : Script)
        × LiveBeside script beside (walking_of own.old) (walking_of other.old) }
    ensures takes { (script beside : Script) →
        LiveBeside script beside (walking_of own.old) (walking_of other.old) →
        TakesRow script beside (walking_of own.old) (walking_of other.old)
        (walking_of own.new) (walking_of other.new) result }
    ensures gives { (script beside : Script) →
        LiveBeside script beside (walking_of own.old) (walking_of other.old) →
        GivesRows F.stands_for out.old out.new (way_of script beside)
        own.old.core.sink.taken own.new.core.sink.taken }
    ensures own { Keeps (walking_of own.old) (walking_of own.new) }
    ensures other { Keeps (walking_of other.old) (walking_of other.new) }
{
    let row = own.core.sink().taken();
    if row >= own.core.source().total_ticks() {
        return Moved::Stalled(StallCause::Done);
    }
    match own.core.take(out) {
        TakeAnswer::Waiting { line } => Moved::Stalled(StallCause::Waiting { line }),
        TakeAnswer::Taken { back: None } => Moved::Yes,
        TakeAnswer::Taken { back: Some(packet) } => {
            own.said.say(packet);
            hear(own, other, row);
            Moved::Yes
        }
    }
}

/// The source of the other way hears what the packets tell that ended with a row of this one, where they tell a
/// return packet. It is lost where no line has a packet that can be read.
fn hear(own: &LiveWay, other: &mut LiveWay, row: u32)
    requires { (script : Script) × (beside : Script) × (was : WayWalking)
        × EndsPacket script beside was (walking_of own.now) (walking_of other.old) row }
    ensures hears { (script beside : Script) (was : WayWalking) →
        EndsPacket script beside was (walking_of own.now) (walking_of other.old) row →
        Hears script beside (walking_of own.now) (walking_of other.old) (walking_of other.new) }
    ensures other { Keeps (walking_of other.old) (walking_of other.new) }
{
    if row >= 16 * u32::from(own.lag) + 23 {
        let cell = heard_cell(own.core.rows().packets());
        other.core.put(cell);
    }
}

/// What comes of the packets that were read of a packet row: what the least line has, or a loss.
fn heard_cell(row: &[Option<Packet>]) -> BackCell
    ensures told { told_in result ≡ option_map told_by (leader row.now) }
    ensures said { IsSaid result }
{
    match leader(row) {
        Some(packet) => told_cell(packet),
        None => BackCell::Lost,
    }
}

/// A packet as a return cell, which tells what it does.
fn told_cell(packet: Packet) -> BackCell
    ensures told { told_in result ≡ Some (told_by packet) }
    ensures said { IsSaid result }
{
    BackCell::Packet(packet.nibbles())
}

/// The packet of the least line of which one was read.
fn leader(row: &[Option<Packet>]) -> Option<Packet>
    ensures { result ≡ leader row.now }
{
    for packet in row {
        if packet.is_some() {
            return *packet;
        }
    }
    None
}
