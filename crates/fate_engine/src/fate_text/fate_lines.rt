//! The lines, each put together in a slice with room for it. The length of a line is the answer.
ghost use Rattle.std.specs.Prelude.{◌≡◌, ◌+◌, ◌≤◌, ◌++◌, codes, decimal, length, take};
ghost use Rattle.text_report.specs.TextCursor.{Extends, HasTextRoom};
ghost use Rattle.text_report.specs.ReportLines.{refusal_text};
ghost use Rattle.fate_engine.specs.fate_law.SessionFates.{refused, accepted};
ghost use Rattle.fate_engine.specs.fate_law.FateText.{cause_text, spoiled_text, truth_text, rows_text, fate_text};
ghost use Rattle.fate_engine.specs.fate_text.FateLineText.{told_text, told_segment, item_text, last_text};

use crate::fate_law::{Cause, Fate, RowSegment, SpoiledRun};
use law_model::Refusal;
use text_report::{TextCursor, add_refusal};

/// Room for a line, in octets.
pub const FATE_LINE_ROOM: usize = 192;

/// What is confirmed first in a segment: whether a piece begins there, and the row of the place.
#[derive(Clone, Copy)]
pub struct ToldMark {
    /// A piece of the stream begins there.
    pub is_true: bool,
    /// The row that has the place.
    pub row: u32,
}

/// How many client items there are of each end.
#[derive(Clone, Copy)]
pub struct Tally {
    /// Frames that were accepted.
    pub frames: u32,
    /// Of these, those that came out.
    pub got: u32,
    /// Those that the rows carry, and that didn't.
    pub lost: u32,
    /// Those that the rows don't carry to their end.
    pub waits: u32,
    /// Frames that were refused.
    pub refused: u32,
}

/// Whether something is so, in words.
pub fn truth(is: bool) -> &'static [u8]
    ensures text { result.now ≡ truth_text is }
    ensures short { length result.now ≤ 5 }
{
    if is { b"true" } else { b"false" }
}

/// Adds two rows, each behind a space.
fn add_rows(line: &mut TextCursor, first: u32, last: u32)
    requires { HasTextRoom line.old 22 }
    ensures text { Extends line.old line.new (rows_text first last) }
    ensures end { line.new.at ≤ line.old.at + 22 }
{
    line.text(b" ");
    line.decimal(first);
    line.text(b" ");
    line.decimal(last);
}

/// Adds why rows aren't whole.
pub fn add_cause(line: &mut TextCursor, cause: Cause)
    requires { HasTextRoom line.old 13 }
    ensures text { Extends line.old line.new (cause_text cause) }
    ensures end { line.new.at ≤ line.old.at + 13 }
{
    match cause {
        Cause::Packet => line.text(b"packet"),
        Cause::PacketOf { line: m } => {
            line.text(b"packet ");
            line.decimal(m);
        }
        Cause::Container { line: m } => {
            line.text(b"container ");
            line.decimal(m);
        }
    }
}

/// The line of a run of rows that aren't whole.
pub fn spoiled_line(run: SpoiledRun, out: &mut [u8]) -> usize
    requires room { 192 ≤ length out.old }
    ensures within { result ≤ 192 }
    ensures line { take result out.new ≡ spoiled_text run }
{
    let mut line = TextCursor::new(out);
    line.text(b"spoiled ");
    line.decimal(run.first);
    line.text(b" ");
    line.decimal(run.end);
    line.text(b" ");
    add_cause(&mut line, run.cause);
    line.text(b"\n");
    line.end()
}

/// Adds what is confirmed first in a segment.
fn add_mark(line: &mut TextCursor, mark: Option<ToldMark>)
    requires { HasTextRoom line.old 16 }
    ensures text { Extends line.old line.new (told_text mark) }
    ensures end { line.new.at ≤ line.old.at + 16 }
{
    match mark {
        None => line.text(b"none"),
        Some(mark) => {
            line.text(truth(mark.is_true));
            line.text(b" ");
            line.decimal(mark.row);
        }
    }
}

/// The line of a segment.
pub fn segment_line(segment: RowSegment, mark: Option<ToldMark>, out: &mut [u8]) -> usize
    requires room { 192 ≤ length out.old }
    ensures within { result ≤ 192 }
    ensures line { take result out.new ≡ told_segment segment mark }
{
    let mut line = TextCursor::new(out);
    line.text(b"segment ");
    line.decimal(segment.first);
    line.text(b" ");
    line.decimal(segment.end);
    line.text(b" ");
    add_mark(&mut line, mark);
    line.text(b"\n");
    line.end()
}

/// Adds that an item is refused, and why.
pub fn add_refused(line: &mut TextCursor, why: Refusal)
    requires { HasTextRoom line.old 35 }
    ensures text { Extends line.old line.new (codes "refused " ++ refusal_text why) }
    ensures end { line.new.at ≤ line.old.at + 35 }
{
    line.text(b"refused ");
    add_refusal(line, why);
}

/// Adds what became of a frame.
fn add_fate(line: &mut TextCursor, fate: Fate)
    requires { HasTextRoom line.old 44 }
    ensures text { Extends line.old line.new (fate_text fate) }
    ensures end { line.new.at ≤ line.old.at + 44 }
{
    match fate {
        Fate::Waits => line.text(b"waits"),
        Fate::Cut {
            first,
            last,
            spoiled,
        } => {
            line.text(b"cut");
            add_rows(line, first, last);
            line.text(b" ");
            line.decimal(spoiled);
        }
        Fate::Unconfirmed { first, last } => add_named(line, b"unconfirmed", first, last),
        Fate::Hunting { first, last } => add_named(line, b"hunting", first, last),
        Fate::Unsettled { first, last } => add_named(line, b"unsettled", first, last),
        Fate::Got { first, last } => add_named(line, b"got", first, last),
    }
}

/// Adds a fate of this name with the first and the last row.
fn add_named(line: &mut TextCursor, name: &[u8], first: u32, last: u32)
    requires short { length name.now ≤ 11 }
    requires room { HasTextRoom line.old 33 }
    ensures text { Extends line.old line.new (name.now ++ rows_text first last) }
    ensures end { line.new.at ≤ line.old.at + 33 }
{
    line.text(name);
    add_rows(line, first, last);
}

/// The line of a client item that is refused.
pub fn refused_line(number: u32, due: u32, why: Refusal, out: &mut [u8]) -> usize
    requires room { 192 ≤ length out.old }
    ensures within { result ≤ 192 }
    ensures line { take result out.new ≡ item_text number due (refused why) }
{
    let mut line = TextCursor::new(out);
    line.text(b"frame ");
    line.decimal(number);
    line.text(b" due ");
    line.decimal(due);
    line.text(b" ");
    add_refused(&mut line, why);
    line.text(b"\n");
    line.end()
}

/// The line of one that is accepted.
pub fn fate_line(number: u32, due: u32, fate: Fate, out: &mut [u8]) -> usize
    requires room { 192 ≤ length out.old }
    ensures within { result ≤ 192 }
    ensures line { take result out.new ≡ item_text number due (accepted fate) }
{
    let mut line = TextCursor::new(out);
    line.text(b"frame ");
    line.decimal(number);
    line.text(b" due ");
    line.decimal(due);
    line.text(b" ");
    add_fate(&mut line, fate);
    line.text(b"\n");
    line.end()
}

/// The last line.
pub fn fates_line(ticks: u32, taken: u32, tally: Tally, starts: bool, out: &mut [u8]) -> usize
    requires room { 192 ≤ length out.old }
    ensures within { result ≤ 192 }
    ensures line { take result out.new ≡ last_text ticks taken tally starts }
{
    let mut line = TextCursor::new(out);
    line.text(b"fates ticks ");
    line.decimal(ticks);
    line.text(b" taken ");
    line.decimal(taken);
    line.text(b" frames ");
    line.decimal(tally.frames);
    line.text(b" got ");
    line.decimal(tally.got);
    line.text(b" lost ");
    line.decimal(tally.lost);
    line.text(b" waits ");
    line.decimal(tally.waits);
    line.text(b" refused ");
    line.decimal(tally.refused);
    line.text(b" starts ");
    line.text(truth(starts));
    line.text(b"\n");
    line.end()
}
