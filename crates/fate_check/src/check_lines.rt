//! The lines, each put together in a slice with room for it. The length of a line is the answer.
ghost use Rattle.std.specs.Prelude.{◌≡◌, ◌+◌, ◌≤◌, length, take};
ghost use Rattle.text_report.specs.TextCursor.{Extends, HasTextRoom};
ghost use Rattle.fate_check.specs.CheckText.{unused_text, idle_text, row_text, early_text, known_text, lines_text};
ghost use Rattle.fate_check.specs.CheckText.{refused_item, last_text};

use fate_engine::fate_text::add_refused;
use law_model::{CommandFault, Refusal, Window};
use text_report::TextCursor;

/// Room for a line, in octets.
pub(crate) const CHECK_LINE_ROOM: usize = 128;

/// How much of each kind was found.
#[derive(Clone, Copy, Debug, PartialEq, Eq)]
pub struct Found {
    /// The lines that carried payload in no row.
    pub unused: u32,
    /// The failures that are told idle.
    pub idle: u32,
    /// The accepted frames that are due before the first taken row in which a line carried payload.
    pub early: u32,
    /// The items that were refused.
    pub refused: u32,
}

/// The line of a line that carried payload in no row.
pub(crate) fn unused_line(member: u8, out: &mut [u8]) -> usize
    requires room { 128 ≤ length out.old }
    ensures within { result ≤ 128 }
    ensures line { take result out.new ≡ unused_text member }
{
    let mut line = TextCursor::new(out);
    line.text(b"line ");
    line.decimal(member);
    line.text(b" unused\n");
    line.end()
}

/// The line of a failure that is told idle.
pub(crate) fn idle_line(member: u8, window: Window, out: &mut [u8]) -> usize
    requires room { 128 ≤ length out.old }
    ensures within { result ≤ 128 }
    ensures line { take result out.new ≡ idle_text member window }
{
    let mut line = TextCursor::new(out);
    line.text(b"window ");
    line.decimal(member);
    line.text(b" ");
    line.decimal(window.first);
    line.text(b" ");
    line.decimal(window.end);
    line.text(b" idle\n");
    line.end()
}

/// Adds a row, where there is one.
fn add_row(line: &mut TextCursor, row: Option<u32>)
    requires { HasTextRoom line.old 10 }
    ensures text { Extends line.old line.new (row_text row) }
    ensures end { line.new.at ≤ line.old.at + 10 }
{
    match row {
        Some(row) => line.decimal(row),
        None => line.text(b"none"),
    }
}

/// The line of accepted frames that are due before the first taken row in which a line carried payload, and of
/// this row.
pub(crate) fn early_line(frames: u32, row: Option<u32>, out: &mut [u8]) -> usize
    requires room { 128 ≤ length out.old }
    ensures within { result ≤ 128 }
    ensures line { take result out.new ≡ early_text frames row }
{
    let mut line = TextCursor::new(out);
    line.text(b"early ");
    line.decimal(frames);
    line.text(b" ");
    add_row(&mut line, row);
    line.text(b"\n");
    line.end()
}

/// Adds which lines there are, where a command is for none of them.
fn add_known(line: &mut TextCursor, fault: CommandFault)
    requires { HasTextRoom line.old 15 }
    ensures text { Extends line.old line.new (known_text fault) }
    ensures end { line.new.at ≤ line.old.at + 15 }
{
    match fault {
        CommandFault::UnknownLine { lines } => {
            line.number(b" lines 0 to ", lines.saturating_sub(1));
        }
        _ => {}
    }
}

/// Adds which lines there are, where an item is a command for none of them.
fn add_lines(line: &mut TextCursor, why: Refusal)
    requires { HasTextRoom line.old 15 }
    ensures text { Extends line.old line.new (lines_text why) }
    ensures end { line.new.at ≤ line.old.at + 15 }
{
    match why {
        Refusal::Command(fault) => add_known(line, fault),
        Refusal::Frame(_) => {}
    }
}

/// The line of an item that was refused.
pub(crate) fn refused_line(item: u32, why: Refusal, out: &mut [u8]) -> usize
    requires room { 128 ≤ length out.old }
    ensures within { result ≤ 128 }
    ensures line { take result out.new ≡ refused_item item why }
{
    let mut line = TextCursor::new(out);
    line.text(b"item ");
    line.decimal(item);
    line.text(b" ");
    add_refused(&mut line, why);
    add_lines(&mut line, why);
    line.text(b"\n");
    line.end()
}

/// The last line.
pub(crate) fn check_line(found: Found, out: &mut [u8]) -> usize
    requires room { 128 ≤ length out.old }
    ensures within { result ≤ 128 }
    ensures line { take result out.new ≡ last_text found }
{
    let mut line = TextCursor::new(out);
    line.text(b"check unused ");
    line.decimal(found.unused);
    line.text(b" idle ");
    line.decimal(found.idle);
    line.text(b" early ");
    line.decimal(found.early);
    line.text(b" refused ");
    line.decimal(found.refused);
    line.text(b"\n");
    line.end()
}
