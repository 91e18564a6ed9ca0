//! The sink's side of a walk: cells are popped until the lines decide a row, and the row is taken.

ghost use Rattle.std.specs.Prelude.{◌≡◌, ℕ, ◌+◌, ◌<◌, ◌≤◌, ◌++◌, List, length, min};
ghost use Rattle.law_model.specs.Common.{Leg, Start, Cell, most_lines};
ghost use Rattle.walk_engine.specs.walk_core.Take.{CanPop, HasPopped, CanTake, HasRow};
ghost use Rattle.walk_engine.specs.walk_core.WayParts.{windows_in};
ghost use Rattle.terminal_sink.specs.sink_core.TakenAndGiven.{added_frames};
ghost use Rattle.member_rows.specs.realign_rows.Gather.{line_count};

use crate::walk_core::counted_frames::CountedOut;
use crate::walk_parts::WalkLine;
use law_model::FrameOut;
use member_rows::lcas_packet::Packet;
use member_rows::realign_rows::RowGather;
use octet_io::take_back;
use terminal_sink::sink_core::{SinkCore, TakeAnswer};

/// Pops cells line by line until each decides the next row, or up to the first line that doesn't.
pub(super) fn pop_lines(lines: &mut Vec<WalkLine>, rows: &mut RowGather) -> Option<u8>
    requires few { length lines.old.items ≤ most_lines }
    ensures pops { (leg : Leg) → CanPop leg lines.old.items rows.old →
        HasPopped leg lines.old.items lines.new.items rows.new result }
    ensures lines { line_count rows.new ≡ line_count rows.old }
    ensures rows { rows.new.rows ≡ rows.old.rows }
    ensures windows { windows_in lines.new.items ≡ windows_in lines.old.items }
{
    for m in 0..lines.len() {
        if !lines[m].pop_into(rows, m as u8) {
            return Some(m as u8);
        }
    }
    None
}

/// Takes the next row, which is decided on each line. Answers its return packet, where one ends with it, and
/// how many frames were counted, after `got` before.
pub(super) fn take_counted_row<F: FrameOut>(
    sink: &mut SinkCore,
    rows: &mut RowGather,
    got: u64,
    out: &mut F,
) -> (Option<Packet>, u64)
    requires lines { line_count rows.old ≡ sink.old.lines }
    requires rows { rows.old.rows ≡ sink.old.taken }
    requires few { sink.old.taken < 4294967295 }
    ensures takes { (cells : List (List Cell)) → CanTake cells sink.old rows.old →
        HasRow cells sink.old sink.new rows.new result.0 }
    ensures counted { (cells : List (List Cell)) → CanTake cells sink.old rows.old → result.1
        ≡ min (got + length (added_frames sink.old.options sink.old.size cells sink.old.taken
        sink.new.taken)) 18446744073709551615 }
    ensures gives { (cells : List (List Cell)) → CanTake cells sink.old rows.old →
        (start : Start) (given : List (List ℕ)) → F.stands_for out.old start given →
        F.stands_for out.new start
        (given ++ added_frames sink.old.options sink.old.size cells sink.old.taken sink.new.taken) }
{
    let mut counted = CountedOut::new(out, got);
    let answer = sink.take(rows, &mut counted);
    let CountedOut { out: back, got } = counted;
    take_back(back);
    match answer {
        TakeAnswer::Taken { back } => (back, got),
        TakeAnswer::Waiting { .. } => (None, got),
    }
}
