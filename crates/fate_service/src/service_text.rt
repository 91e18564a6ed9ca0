//! The lines, each put together in a slice with room for it. The length of a line is the answer.

ghost use Rattle.std.specs.Prelude.{◌≡◌, ◌+◌, ◌≤◌, length, take, Option};
ghost use Rattle.text_report.specs.TextCursor.{Extends, HasTextRoom};
ghost use Rattle.fate_service.specs.ServiceText.{tally_text, members_text, first_cause, outage_text};
ghost use Rattle.fate_service.specs.ServiceText.{came_text, carried_text, room_text, counts_text, left_text};
ghost use Rattle.fate_service.specs.ServiceText.{stretch_text, delays_text, ends_text, last_text};
ghost use Rattle.law_model.specs.Common.{most_lines};

use crate::frame_delays::Delays;
use crate::landed_frames::Tally;
use crate::outages::Outage;
use crate::stretch_counts::{Came, Ended, Peak, Stretch};
use crate::width_run::WidthRun;
use fate_engine::fate_core::Cause;
use fate_engine::fate_text::{add_cause, truth};
use text_report::TextCursor;

/// Room for a line, in octets.
pub(crate) const SERVICE_LINE_ROOM: usize = 448;

/// What the last line says beside the counts.
#[derive(Clone, Copy)]
pub struct Ends {
    /// The outages.
    pub outages: usize,
    /// The accepted frames that the taken rows don't carry to their end.
    pub waits: Tally,
    /// The ticks that were made.
    pub ticks: u32,
    /// The rows that were taken.
    pub taken: u32,
    /// A piece begins at each place that is confirmed first after a break.
    pub starts: bool,
}

/// The line of rows in which as many members carry payload, each with so many octets in a row.
pub(crate) fn members_line(run: WidthRun, size: u16, out: &mut [u8]) -> usize
    requires few { run.members ≤ most_lines }
    requires room { 448 ≤ length out.old }
    ensures within { result ≤ 448 }
    ensures line { take result out.new ≡ members_text size run }
{
    let mut line = TextCursor::new(out);
    line.text(b"members ");
    line.decimal(run.first);
    line.text(b" ");
    line.decimal(run.end);
    line.text(b" ");
    line.decimal(run.members);
    line.text(b" ");
    line.decimal(run.members * u32::from(size));
    line.text(b"\n");
    line.end()
}

/// Adds a number of frames and their octets.
fn add_tally(line: &mut TextCursor, tally: Tally)
    requires { HasTextRoom line.old 31 }
    ensures text { Extends line.old line.new (tally_text tally) }
    ensures end { line.new.at ≤ line.old.at + 31 }
{
    line.decimal(tally.frames);
    line.text(b" ");
    line.decimal(tally.octets);
}

/// Adds why the first row of an outage isn't whole.
fn add_first_cause(line: &mut TextCursor, cause: Option<Cause>)
    requires { HasTextRoom line.old 13 }
    ensures text { Extends line.old line.new (first_cause cause) }
    ensures end { line.new.at ≤ line.old.at + 13 }
{
    if let Some(cause) = cause {
        add_cause(line, cause);
    }
}

/// The line of an outage.
pub(crate) fn outage_line(
    outage: Outage,
    lost: Tally,
    cause: Option<Cause>,
    out: &mut [u8],
) -> usize
    requires room { 448 ≤ length out.old }
    ensures within { result ≤ 448 }
    ensures line { take result out.new ≡ outage_text outage lost cause }
{
    let mut line = TextCursor::new(out);
    line.text(b"outage ");
    line.decimal(outage.first);
    line.text(b" ");
    line.decimal(outage.end);
    line.text(b" spoiled ");
    line.decimal(outage.spoiled);
    line.text(b" lost ");
    add_tally(&mut line, lost);
    line.text(b" ");
    add_first_cause(&mut line, cause);
    line.text(b"\n");
    line.end()
}

/// Adds the first tick of a stretch, the first one after it, and the frames that landed.
fn add_came(line: &mut TextCursor, first: u32, end: u32, came: Came)
    requires { HasTextRoom line.old 101 }
    ensures text { Extends line.old line.new (came_text first end came) }
    ensures end { line.new.at ≤ line.old.at + 101 }
{
    line.decimal(first);
    line.text(b" ");
    line.decimal(end);
    line.text(b" offered ");
    add_tally(line, came.offered);
    line.text(b" refused ");
    add_tally(line, came.refused);
}

/// Adds the frames that were carried.
fn add_carried(line: &mut TextCursor, ended: Ended)
    requires { HasTextRoom line.old 73 }
    ensures text { Extends line.old line.new (carried_text ended) }
    ensures end { line.new.at ≤ line.old.at + 73 }
{
    line.text(b" got ");
    add_tally(line, ended.got);
    line.text(b" lost ");
    add_tally(line, ended.lost);
}

/// Adds how many octets the rows had room for, and the most frames that waited.
fn add_room(line: &mut TextCursor, capacity: u64, peak: Peak)
    requires { HasTextRoom line.old 58 }
    ensures text { Extends line.old line.new (room_text capacity peak) }
    ensures end { line.new.at ≤ line.old.at + 58 }
{
    line.text(b" capacity ");
    line.decimal(capacity);
    line.text(b" queue ");
    line.decimal(peak.queue);
    line.text(b" ");
    line.decimal(peak.tick);
}

/// Adds the first tick of a stretch, the first one after it, and its counts.
fn add_stretch(line: &mut TextCursor, first: u32, end: u32, stretch: Stretch)
    requires { HasTextRoom line.old 274 }
    ensures text { Extends line.old line.new (counts_text first end stretch) }
    ensures end { line.new.at ≤ line.old.at + 274 }
{
    add_came(line, first, end, stretch.came);
    add_carried(line, stretch.ended);
    add_room(line, stretch.capacity, stretch.peak);
    line.text(b" delay ");
    line.decimal(stretch.ended.delay);
    line.text(b" dark ");
    line.decimal(stretch.dark);
}

/// The line of a stretch.
pub(crate) fn stretch_line(first: u32, end: u32, stretch: Stretch, out: &mut [u8]) -> usize
    requires room { 448 ≤ length out.old }
    ensures within { result ≤ 448 }
    ensures line { take result out.new ≡ stretch_text first end stretch }
{
    let mut line = TextCursor::new(out);
    line.text(b"stretch ");
    add_stretch(&mut line, first, end, stretch);
    line.text(b"\n");
    line.end()
}

/// The line of delays, of the frames that were got and at its end the greatest one of a line.
pub(crate) fn delays_line(delays: Delays, path: u16, out: &mut [u8]) -> usize
    requires room { 448 ≤ length out.old }
    ensures within { result ≤ 448 }
    ensures line { take result out.new ≡ delays_text delays path }
{
    let mut line = TextCursor::new(out);
    line.text(b"delays least ");
    line.decimal(delays.least);
    line.text(b" half ");
    line.decimal(delays.half);
    line.text(b" most ");
    line.decimal(delays.most);
    line.text(b" greatest ");
    line.decimal(delays.greatest);
    line.text(b" path ");
    line.decimal(path);
    line.text(b"\n");
    line.end()
}

/// Adds the outages, and the accepted frames that the taken rows don't carry to their end.
fn add_left(line: &mut TextCursor, outages: usize, waits: Tally)
    requires { HasTextRoom line.old 67 }
    ensures text { Extends line.old line.new (left_text outages waits) }
    ensures end { line.new.at ≤ line.old.at + 67 }
{
    line.text(b" outages ");
    line.decimal(outages);
    line.text(b" waits ");
    add_tally(line, waits);
}

/// Adds what the last line says beside the counts.
fn add_ends(line: &mut TextCursor, ends: Ends)
    requires { HasTextRoom line.old 114 }
    ensures text { Extends line.old line.new (ends_text ends) }
    ensures end { line.new.at ≤ line.old.at + 114 }
{
    add_left(line, ends.outages, ends.waits);
    line.text(b" ticks ");
    line.decimal(ends.ticks);
    line.text(b" taken ");
    line.decimal(ends.taken);
    line.text(b" starts ");
    line.text(truth(ends.starts));
}

/// The last line.
pub(crate) fn service_line(end: u32, stretch: Stretch, ends: Ends, out: &mut [u8]) -> usize
    requires room { 448 ≤ length out.old }
    ensures within { result ≤ 448 }
    ensures line { take result out.new ≡ last_text end stretch ends }
{
    let mut line = TextCursor::new(out);
    line.text(b"service ");
    add_stretch(&mut line, 0, end, stretch);
    add_ends(&mut line, ends);
    line.text(b"\n");
    line.end()
}
