//! The text of fates: a line for each run of spoiled rows, each segment but the first, and each client item
//! that landed, and one of totals.
ghost use Rattle.std.specs.Prelude.{◌≡◌, ℕ, ◌+◌, ◌<◌, ◌++◌, List, Contains, slice_get, OnOk, OnErr, flat_map};
ghost use Rattle.law_model.specs.Common.{leg_of, Start, Appends, AppendsPart};
ghost use Rattle.text_got.specs.TextSoFar.{HasText};
ghost use Rattle.fate_engine.specs.Common.{are_true_marks, Ended, ended_of, refused, accepted, later_segments};
ghost use Rattle.fate_engine.specs.Common.{spoiled_text, mark_text, ended_text, fates_end, fates_text, told_text};
ghost use Rattle.fate_engine.specs.Common.{item_text};
ghost use Rattle.fate_engine.specs.declared.fate_law.RowSegment.{RowSegment as RowSegmentData};
ghost use Rattle.law_walk.specs.Common.{session_rows, session_pieces};
ghost use Rattle.fate_walks.specs.walk_fates.MadeWalk.{SeesWalk, Counted, segment_in, fates_in, end_by, counted_end};

use crate::walk_fates::seen_rows::SeenWalk;
use crate::walk_frames::{FrameCursor, LandedFrame};
use fate_engine::fate_core::{Fate, FateTotals, RowSegment, SpoiledRun, fate, starts_true};
use fate_engine::fate_text::{
    FATE_LINE_ROOM, Tally, ToldMark, fate_line, fates_line, refused_line, segment_line,
    spoiled_line,
};
use law_model::Refusal;
use octet_io::{ByteSink, Failed, take_back};
use text_got::GotLines;
use walk_engine::walk_core::Walk;

/// The client items whose lines were written.
#[derive(Clone, Copy)]
struct EndedCount {
    /// How many were accepted.
    frames: u32,
    /// How many were refused.
    refused: u32,
    /// What became of those that were accepted.
    totals: FateTotals,
}

/// Writes the lines of runs of rows that aren't whole.
fn write_runs<K: ByteSink>(runs: &[SpoiledRun], got: &mut GotLines<K>)
    ensures { (start : Start) (before : List ℕ) →
        HasText K.written K.faults got.old start before →
        HasText K.written K.faults got.new start (before ++ flat_map spoiled_text runs.now) }
{
    let mut line = [0u8; FATE_LINE_ROOM];
    for run in runs {
        let end = spoiled_line(*run, &mut line);
        got.line(&line[..end]);
    }
}

/// What is confirmed first in a segment, which is one of those but the first.
fn told_mark(segment: RowSegment, walk: &Walk, seen: &SeenWalk) -> Option<ToldMark>
    requires seen { SeesWalk (leg_of walk.now.script) walk.now.counts seen.now }
    requires segment { Contains
        (later_segments (session_rows (leg_of walk.now.script) walk.now.counts.rows)) segment }
    ensures { told_text result ≡ mark_text (session_pieces (leg_of walk.now.script))
        (session_rows (leg_of walk.now.script) walk.now.counts.rows) segment.mark }
{
    let place = segment.mark?;
    let row = seen.rows.packets.row_of(place)?;
    Some(ToldMark {
        is_true: seen.ruler.is_piece(place),
        row,
    })
}

/// Writes the line of a segment, of those but the first, counted from 0.
fn write_segment<K: ByteSink>(i: usize, walk: &Walk, seen: &SeenWalk, got: &mut GotLines<K>)
    requires { SeesWalk (leg_of walk.now.script) walk.now.counts seen.now }
    ensures { (segment : RowSegmentData) →
        slice_get (later_segments (session_rows (leg_of walk.now.script) walk.now.counts.rows)) i
        ≡ Some segment → (start : Start) (before : List ℕ) →
        HasText K.written K.faults got.old start before →
        HasText K.written K.faults got.new start
        (before ++ segment_in (leg_of walk.now.script) walk.now.counts.rows segment) }
{
    let Some(segment) = seen.rows.segments.later(i) else {
        return;
    };
    let mut line = [0u8; FATE_LINE_ROOM];
    let end = segment_line(segment, told_mark(segment, walk, seen), &mut line);
    got.line(&line[..end]);
}

/// Writes the lines of the segments but the first.
fn write_segments<K: ByteSink>(walk: &Walk, seen: &SeenWalk, got: &mut GotLines<K>)
    requires { SeesWalk (leg_of walk.now.script) walk.now.counts seen.now }
    ensures { (start : Start) (before : List ℕ) →
        HasText K.written K.faults got.old start before →
        HasText K.written K.faults got.new start
        (before ++ flat_map (segment_in (leg_of walk.now.script) walk.now.counts.rows)
        (later_segments (session_rows (leg_of walk.now.script) walk.now.counts.rows))) }
{
    for i in 0..seen.rows.segments.later_count() {
        write_segment(i, walk, seen, got);
    }
}

/// What became of an accepted frame, counted from 0 as they were accepted.
pub fn accepted_fate(frame: u32, walk: &Walk, seen: &SeenWalk) -> Fate
    requires { SeesWalk (leg_of walk.now.script) walk.now.counts seen.now }
    ensures { result ≡ fates_in (leg_of walk.now.script) walk.now.counts.rows frame }
{
    let rows = &seen.rows;
    fate(frame as usize, &seen.ruler, &rows.packets, &rows.segments)
}

/// Writes the line of a client item that was refused, and counts it.
fn write_refused<K: ByteSink>(
    frame: LandedFrame,
    why: Refusal,
    ended: &mut EndedCount,
    got: &mut GotLines<K>,
)
    requires { ended.old.refused < 4294967295 }
    ensures text { (start : Start) (before : List ℕ) →
        HasText K.written K.faults got.old start before →
        HasText K.written K.faults got.new start
        (before ++ item_text frame.number frame.due (refused why)) }
    ensures count { ended.new ≡ counted_end ended.old (refused why) }
{
    ended.refused += 1;
    let mut line = [0u8; FATE_LINE_ROOM];
    let end = refused_line(frame.number, frame.due, why, &mut line);
    got.line(&line[..end]);
}

/// Writes the line of one that was accepted, and counts it.
fn write_accepted<K: ByteSink>(
    frame: LandedFrame,
    fate: Fate,
    ended: &mut EndedCount,
    got: &mut GotLines<K>,
)
    requires few { ended.old.frames < 4294967295 }
    requires sum { ended.old.frames
        ≡ ended.old.totals.got + ended.old.totals.lost + ended.old.totals.waits }
    ensures text { (start : Start) (before : List ℕ) →
        HasText K.written K.faults got.old start before →
        HasText K.written K.faults got.new start
        (before ++ item_text frame.number frame.due (accepted fate)) }
    ensures count { ended.new ≡ counted_end ended.old (accepted fate) }
{
    ended.frames += 1;
    ended.totals.add(fate);
    let mut line = [0u8; FATE_LINE_ROOM];
    let end = fate_line(frame.number, frame.due, fate, &mut line);
    got.line(&line[..end]);
}

/// Writes the line of a client item that has landed, and counts it.
fn write_frame<K: ByteSink>(
    frame: LandedFrame,
    walk: &Walk,
    seen: &SeenWalk,
    ended: &mut EndedCount,
    got: &mut GotLines<K>,
)
    requires seen { SeesWalk (leg_of walk.now.script) walk.now.counts seen.now }
    requires few { ended.old.frames + ended.old.refused < 4294967295 }
    requires sum { ended.old.frames
        ≡ ended.old.totals.got + ended.old.totals.lost + ended.old.totals.waits }
    ensures text { (start : Start) (before : List ℕ) →
        HasText K.written K.faults got.old start before →
        HasText K.written K.faults got.new start
        (before ++ item_text frame.number frame.due
        (end_by (fates_in (leg_of walk.now.script) walk.now.counts.rows) frame.refusal
        ended.old.frames)) }
    ensures count { ended.new ≡ counted_end ended.old
        (end_by (fates_in (leg_of walk.now.script) walk.now.counts.rows) frame.refusal
        ended.old.frames) }
{
    match frame.refusal {
        Some(why) => write_refused(frame, why, ended, got),
        None => {
            let fate = accepted_fate(ended.frames, walk, seen);
            write_accepted(frame, fate, ended, got);
        }
    }
}

/// Writes the lines of the client items that have landed, and counts them.
fn write_frames<K: ByteSink>(walk: &Walk, seen: &SeenWalk, got: &mut GotLines<K>) -> EndedCount
    requires { SeesWalk (leg_of walk.now.script) walk.now.counts seen.now }
    ensures text { (start : Start) (before : List ℕ) →
        HasText K.written K.faults got.old start before →
        HasText K.written K.faults got.new start
        (before ++ flat_map ended_text (ended_of (leg_of walk.now.script) walk.now.counts)) }
    ensures counted { Counted (ended_of (leg_of walk.now.script) walk.now.counts) result }
{
    let mut ended = EndedCount {
        frames: 0,
        refused: 0,
        totals: FateTotals::default(),
    };
    let mut cursor = FrameCursor::new(walk);
    while let Some(frame) = cursor.next(walk) {
        write_frame(frame, walk, seen, &mut ended, got);
    }
    ended
}

/// Writes the last line.
fn write_end<K: ByteSink>(walk: &Walk, seen: &SeenWalk, ended: EndedCount, got: &mut GotLines<K>)
    requires { SeesWalk (leg_of walk.now.script) walk.now.counts seen.now }
    ensures { (all : List Ended) → Counted all ended → (start : Start) (before : List ℕ) →
        HasText K.written K.faults got.old start before →
        HasText K.written K.faults got.new start
        (before ++ fates_end walk.now.counts.ticks walk.now.counts.rows all
        (are_true_marks (session_pieces (leg_of walk.now.script))
        (session_rows (leg_of walk.now.script) walk.now.counts.rows))) }
{
    let totals = walk.totals();
    let tally = Tally {
        frames: ended.frames,
        got: ended.totals.got,
        lost: ended.totals.lost,
        waits: ended.totals.waits,
        refused: ended.refused,
    };
    let starts = starts_true(&seen.ruler, &seen.rows.segments);
    let mut line = [0u8; FATE_LINE_ROOM];
    let end = fates_line(totals.ticks, totals.taken, tally, starts, &mut line);
    got.line(&line[..end]);
}

/// Writes what became of the frames of a walk.
pub fn write_fates<K: ByteSink>(walk: &Walk, seen: &SeenWalk, out: &mut K) -> Result<(), Failed>
    requires { SeesWalk (leg_of walk.now.script) walk.now.counts seen.now }
    ensures ok { OnOk result (Appends K.written K.faults out.old out.new
        (fates_text (leg_of walk.now.script) walk.now.counts)) }
    ensures err { OnErr result (AppendsPart K.written K.faults out.old out.new
        (fates_text (leg_of walk.now.script) walk.now.counts)) }
{
    let mut got = GotLines::new(out);
    write_runs(seen.rows.runs.runs(), &mut got);
    write_segments(walk, seen, &mut got);
    let ended = write_frames(walk, seen, &mut got);
    write_end(walk, seen, ended, &mut got);
    let (back, end) = got.finish();
    take_back(back);
    end
}
