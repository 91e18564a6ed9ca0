//! The lines of a report. Each is put together in a slice with room for it, and its length is the answer.
ghost use Rattle.std.specs.Prelude.{◌≡◌, ◌+◌, ◌*◌, ◌≤◌, length, take};
ghost use Rattle.text_report.specs.TextCursor.{Extends, HasTextRoom};
ghost use Rattle.text_report.specs.ReportLines.{got_text, accept_fault_text, command_fault_text};
ghost use Rattle.text_report.specs.ReportLines.{refusal_text, refused_text, total_text};

use crate::text_cursor::TextCursor;
use law_model::{AcceptFault, CommandFault, LONGEST_FRAME, Refusal, Totals};

/// Room for the line of a frame of `LONGEST_FRAME` octets, in octets.
pub const GOT_ROOM: usize = 2 * LONGEST_FRAME + 5;

/// Room for the line of a refused item, in octets.
pub const REFUSED_ROOM: usize = 64;

/// Room for the line of totals, in octets.
pub const TOTAL_ROOM: usize = 128;

/// Writes the line of a delivered frame: `got`, a space, and two lower-case digits for each octet.
pub fn got_line(frame: &[u8], out: &mut [u8]) -> usize
    requires room { 2 * length frame.now + 5 ≤ length out.old }
    ensures size { result ≡ 2 * length frame.now + 5 }
    ensures line { take result out.new ≡ got_text frame.now }
{
    let mut line = TextCursor::new(out);
    line.text(b"got ");
    line.hex(frame);
    line.text(b"\n");
    line.end()
}

/// Writes the line of a refused item: its number, and why. The length of a frame is in octets.
pub fn refused_line(item: u32, why: &Refusal, out: &mut [u8]) -> usize
    requires room { 64 ≤ length out.old }
    ensures within { result ≤ 64 }
    ensures line { take result out.new ≡ refused_text item why.now }
{
    let mut line = TextCursor::new(out);
    line.text(b"refused ");
    line.decimal(item);
    line.text(b" ");
    add_refusal(&mut line, *why);
    line.text(b"\n");
    line.end()
}

/// Adds why an item is refused.
pub fn add_refusal(line: &mut TextCursor, why: Refusal)
    requires { HasTextRoom line.old 27 }
    ensures text { Extends line.old line.new (refusal_text why) }
    ensures end { line.new.at ≤ line.old.at + 27 }
{
    match why {
        Refusal::Frame(fault) => add_accept_fault(line, fault),
        Refusal::Command(fault) => line.text(command_fault_words(fault)),
    }
}

/// Adds why a frame is refused.
fn add_accept_fault(line: &mut TextCursor, fault: AcceptFault)
    requires { HasTextRoom line.old 27 }
    ensures text { Extends line.old line.new (accept_fault_text fault) }
    ensures end { line.new.at ≤ line.old.at + 27 }
{
    match fault {
        AcceptFault::Length { n } => {
            line.text(b"length ");
            line.decimal(n);
        }
        AcceptFault::QueueFull { .. } => line.text(b"queue"),
    }
}

/// The words of why a command is refused.
fn command_fault_words(fault: CommandFault) -> &'static [u8]
    ensures words { result.now ≡ command_fault_text fault }
    ensures short { length result.now ≤ 10 }
{
    match fault {
        CommandFault::UnknownLine { .. } => b"unknown",
        CommandFault::AlreadyIn => b"already in",
        CommandFault::NotIn => b"not in",
        CommandFault::TooManyPending { .. } => b"pending",
    }
}

/// Writes the line of totals.
pub fn total_line(totals: &Totals, out: &mut [u8]) -> usize
    requires room { 128 ≤ length out.old }
    ensures within { result ≤ 128 }
    ensures line { take result out.new ≡ total_text totals.now }
{
    let mut line = TextCursor::new(out);
    line.text(b"total ticks ");
    line.decimal(totals.ticks);
    line.text(b" taken ");
    line.decimal(totals.taken);
    line.text(b" frames ");
    line.decimal(totals.frames);
    line.text(b" commands ");
    line.decimal(totals.commands);
    line.text(b" refused ");
    line.decimal(totals.refused);
    line.text(b" got ");
    line.decimal(totals.got);
    line.text(b"\n");
    line.end()
}
