//! What became of an accepted frame, and whether all that is confirmed after breaks is true.
ghost use Rattle.std.specs.Prelude.{◌≡◌, ℕ, ◌+◌, ◌*◌, ◌≤◌, length, List, Option};
ghost use Rattle.law_model.specs.Common.{Scenario, Told, Stream, StreamRow, rows_of};
ghost use Rattle.fate_engine.specs.fate_law.Ruler.{ruler_of};
ghost use Rattle.fate_engine.specs.fate_law.Marks.{are_true_marks};
ghost use Rattle.fate_engine.specs.fate_law.SessionFates.{fate_at};
ghost use Rattle.fate_engine.specs.fate_core.Packets.{ArePackets};
ghost use Rattle.fate_engine.specs.fate_core.Segments.{SegmentsStand};
ghost use Rattle.fate_engine.specs.fate_core.FateBySegment.{settles, fate_around, is_true_of};

use crate::fate_core::frame_ruler::Ruler;
use crate::fate_core::packet_rows::Packets;
use crate::fate_core::row_segments::{Around, Segments};
use crate::fate_law::{Fate, RowSegment};

/// Whether the frame before a frame begins at a place or later.
fn is_settled(ruler: &Ruler, frame: usize, place: u64) -> bool
    ensures { result ≡ settles ruler.now.sent frame place }
{
    if frame == 0 {
        return false;
    }
    match ruler.sides(frame - 1) {
        Some((from, _)) => place <= from,
        None => false,
    }
}

/// What became of a frame with these first and last rows, where its piece begins at a place.
fn fate_in(around: Around, first: u32, last: u32, from: u64, frame: usize, ruler: &Ruler) -> Fate
    ensures { result ≡ fate_around around first last from (settles ruler.now.sent frame) }
{
    if last >= around.spoiled {
        let spoiled = around.spoiled;
        return Fate::Cut {
            first,
            last,
            spoiled,
        };
    }
    if around.first {
        return Fate::Got { first, last };
    }
    match around.mark {
        None => Fate::Unconfirmed { first, last },
        Some(mark) => {
            if from < mark {
                Fate::Hunting { first, last }
            } else if is_settled(ruler, frame, mark) {
                Fate::Got { first, last }
            } else {
                Fate::Unsettled { first, last }
            }
        }
    }
}

/// What became of an accepted frame, counted from 0 as they were accepted. The rows are governed by the packets.
pub fn fate(frame: usize, ruler: &Ruler, packets: &Packets, segments: &Segments) -> Fate
    requires { segments.now.rows ≤ 16 * length packets.now.active + 24 }
    ensures { (scenario : Scenario) (cells : List (Option Told)) (stream : Stream) (rows : ℕ) →
        ArePackets scenario cells packets.now → ruler.now ≡ ruler_of stream →
        SegmentsStand segments.now (rows_of scenario cells rows) →
        result ≡ fate_at stream.pieces (rows_of scenario cells rows) frame }
{
    let Some((from, to)) = ruler.sides(frame) else {
        return Fate::Waits;
    };
    if packets.place(segments.rows()) < to {
        return Fate::Waits;
    }
    let Some(first) = packets.row_of(from) else {
        return Fate::Waits;
    };
    let Some(last) = packets.row_of(to - 1) else {
        return Fate::Waits;
    };
    fate_in(segments.around(first), first, last, from, frame, ruler)
}

/// Whether a piece begins at each place that is confirmed first in a segment but the first.
pub fn starts_true(ruler: &Ruler, segments: &Segments) -> bool
    ensures { (stream : Stream) (rows : List StreamRow) →
        ruler.now ≡ ruler_of stream → SegmentsStand segments.now rows →
        result ≡ are_true_marks stream.pieces rows }
{
    for i in 0..segments.later_count() {
        if !is_true(ruler, segments.later(i)) {
            return false;
        }
    }
    true
}

/// Whether a piece begins at the mark of a segment, where there is one.
fn is_true(ruler: &Ruler, segment: Option<RowSegment>) -> bool
    ensures { (stream : Stream) → ruler.now ≡ ruler_of stream →
        result ≡ is_true_of stream.pieces segment }
{
    match segment {
        Some(segment) => match segment.mark {
            Some(mark) => ruler.is_piece(mark),
            None => true,
        },
        None => true,
    }
}
