//! The records of a capture of GFP frames, frame by frame.
ghost use Rattle.std.specs.Prelude.{◌≡◌, ◌<◌, ◌≤◌, ℕ, List, [], ◌++◌, length, Some, slice_get, OnOk, OnErr};
ghost use Rattle.law_model.specs.Common.{Start, Appends, AppendsPart, leg_of, longest_frame};
ghost use Rattle.law_model.specs.declared.script_types.Item.{Item as ItemData};
ghost use Rattle.law_model.specs.declared.script_types.ItemKind.TheVariants.{Frame};
ghost use Rattle.law_walk.specs.Common.{session_rows, session_pieces};
ghost use Rattle.text_captures.specs.capture_file.WrittenCapture.{RowFrame};
ghost use Rattle.text_captures.specs.capture_file.CaptureSoFar.{HasGfp};
ghost use Rattle.fate_walks.specs.walk_fates.MadeWalk.{SeesWalk, fates_in};
ghost use Rattle.fate_walks.specs.walk_gfp.CarriedInRows.{carried_frames, sent_capture};
ghost use Rattle.fate_walks.specs.walk_gfp.LastRowOfFrame.{last_row, frame_if};

use crate::walk_fates::{SeenWalk, accepted_fate};
use crate::walk_frames::FrameCursor;
use fate_engine::fate_core::Fate;
use law_model::{FrameRoom, ItemKind, Lent};
use octet_io::{ByteSink, Failed, take_back};
use text_captures::capture_file::GfpOut;
use walk_engine::walk_core::Walk;

/// The row of a frame's last octet, where the taken rows carry it.
fn last_row(fate: Fate) -> Option<u32>
    ensures { result ≡ last_row fate }
{
    match fate {
        Fate::Waits => None,
        Fate::Cut { last, .. }
        | Fate::Unconfirmed { last, .. }
        | Fate::Hunting { last, .. }
        | Fate::Unsettled { last, .. }
        | Fate::Got { last, .. } => Some(last),
    }
}

/// The octets of a client item of a walk's script. They lie in the room if they were drawn.
fn octets_of<'a>(walk: &'a Walk, number: u32, room: &'a mut FrameRoom) -> &'a [u8]
    requires { number < length walk.now.script.items }
    ensures { (item : ItemData) (octets : List ℕ) →
        slice_get walk.now.script.items number ≡ Some item → item.kind ≡ Frame octets →
        result.now ≡ octets }
{
    match walk.script().items.lend(number, room) {
        Lent::Kept(kind) => match kind {
            ItemKind::Frame(octets) => octets.0.as_slice(),
            ItemKind::Add(_) | ItemKind::Remove(_) => &[],
        },
        Lent::Drawn => room.octets(),
    }
}

/// Writes the record of an accepted frame, counted from 0 as they were accepted, where the taken rows carry it.
fn write_accepted<K: ByteSink>(
    frame: u32,
    octets: &[u8],
    walk: &Walk,
    seen: &SeenWalk,
    out: &mut GfpOut<K>,
)
    requires few { length octets.now ≤ longest_frame }
    requires seen { SeesWalk (leg_of walk.now.script) walk.now.counts seen.now }
    ensures { (start : Start) (before : List RowFrame) →
        HasGfp K.written K.faults out.old start before → HasGfp K.written K.faults out.new start
        (before ++ frame_if
        (last_row (fates_in (leg_of walk.now.script) walk.now.counts.rows frame))
        octets.now) }
{
    if let Some(row) = last_row(accepted_fate(frame, walk, seen)) {
        out.frame(row, octets);
    }
}

/// Writes the records of all of them.
fn write_records<K: ByteSink>(
    walk: &Walk,
    seen: &SeenWalk,
    room: &mut FrameRoom,
    out: &mut GfpOut<K>,
)
    requires { SeesWalk (leg_of walk.now.script) walk.now.counts seen.now }
    ensures { (start : Start) → HasGfp K.written K.faults out.old start [] →
        HasGfp K.written K.faults out.new start
        (carried_frames (session_pieces (leg_of walk.now.script))
        (session_rows (leg_of walk.now.script) walk.now.counts.rows)) }
{
    let mut accepted = 0;
    let mut cursor = FrameCursor::new(walk);
    while let Some(frame) = cursor.next(walk) {
        if frame.refusal.is_none() {
            let octets = octets_of(walk, frame.number, room);
            write_accepted(accepted, octets, walk, seen, out);
            accepted += 1;
        }
    }
}

/// Writes the capture of the GFP frames that the taken rows of a walk carry. A frame that isn't kept is drawn into
/// the room.
pub fn write_gfp<K: ByteSink>(
    walk: &Walk,
    seen: &SeenWalk,
    room: &mut FrameRoom,
    out: &mut K,
) -> Result<(), Failed>
    requires { SeesWalk (leg_of walk.now.script) walk.now.counts seen.now }
    ensures ok { OnOk result (Appends K.written K.faults out.old out.new
        (sent_capture (leg_of walk.now.script) walk.now.counts)) }
    ensures err { OnErr result (AppendsPart K.written K.faults out.old out.new
        (sent_capture (leg_of walk.now.script) walk.now.counts)) }
{
    let mut gfp = GfpOut::new(out);
    write_records(walk, seen, room, &mut gfp);
    let (back, end) = gfp.finish();
    take_back(back);
    end
}
