//! The notes on what is wrong with an input. Each is put together in a slice with room for one.
ghost use Rattle.std.specs.Prelude.{◌≡◌, ◌≤◌, ◌+◌, ◌++◌, length, take, codes, decimal};
ghost use Rattle.text_report.specs.TextCursor.{Extends, HasTextRoom};
ghost use Rattle.text_scripts.specs.declared.script_read.script_fault.ScriptFault.{ScriptFault};
ghost use Rattle.command_parts.specs.FaultTexts.{kind_text, line_text, limit_text};

use crate::script_helps::{lag_help, slip_help, spread_help};
use text_lines::LineKind;
use text_report::TextCursor;
use text_scripts::script_read::ScriptFault;

/// Room for a note.
pub(super) const NOTE_ROOM: usize = 256;

/// Room for what is said of how to write a line.
const HELP_ROOM: usize = 200;

/// The word of a kind of fault.
fn kind_word(kind: LineKind) -> &'static [u8]
    ensures word { result.now ≡ kind_text kind }
    ensures short { length result.now ≤ 7 }
{
    match kind {
        LineKind::Word => b"word",
        LineKind::Number => b"number",
        LineKind::Hex => b"hex",
        LineKind::Range => b"range",
        LineKind::Order => b"order",
        LineKind::Missing => b"missing",
    }
}

/// Adds what is said of how to write it, behind a front, and ends the note.
fn add_help(line: &mut TextCursor, front: &[u8], help: &[u8])
    requires { HasTextRoom line.old (length front.now + length help.now + 8) }
    ensures { Extends line.old line.new (codes "\nhelp: " ++ front.now ++ help.now ++ codes "\n") }
{
    line.text(b"\nhelp: ");
    line.text(front);
    line.text(help);
    line.text(b"\n");
}

/// Writes that a line of the input is faulty, and how to write it.
pub(super) fn line_note(number: u64, kind: LineKind, help: &[u8], out: &mut [u8]) -> usize
    requires help { length help.now ≤ 200 }
    requires room { 256 ≤ length out.old }
    ensures within { result ≤ 256 }
    ensures line { take result out.new ≡ line_text number kind help.now }
{
    let mut line = TextCursor::new(out);
    line.number(b"fault: line ", number);
    line.text(b": ");
    line.text(kind_word(kind));
    add_help(&mut line, b"", help);
    line.end()
}

/// Writes that a window lets too many containers vanish.
pub(super) fn slip_note(front: &[u8], member: u8, window: u16, slip: u16, out: &mut [u8]) -> usize
    requires front { length front.now ≤ 8 }
    requires room { 256 ≤ length out.old }
    ensures within { result ≤ 256 }
    ensures line { take result out.new ≡ limit_text front.now (ScriptFault.Slip member window slip) }
{
    let mut help = [0u8; HELP_ROOM];
    let help_end = slip_help(slip, &mut help);
    let mut line = TextCursor::new(out);
    line.number(b"fault: slip line ", member);
    line.number(b" window ", window);
    add_help(&mut line, front, &help[..help_end]);
    line.end()
}

/// Writes that delays, slip and ring don't fit, with this help.
fn spread_line(front: &[u8], numbers: (u16, u16, u32, u16), help: &[u8], out: &mut [u8]) -> usize
    requires front { length front.now ≤ 8 }
    requires help { length help.now ≤ 128 }
    requires room { 256 ≤ length out.old }
    ensures within { result ≤ 256 }
    ensures line { take result out.new ≡ codes "fault: spread " ++ decimal numbers.0 ++ codes " "
        ++ decimal numbers.1 ++ codes " " ++ decimal numbers.2 ++ codes " " ++ decimal numbers.3
        ++ codes "\nhelp: " ++ front.now ++ help.now ++ codes "\n" }
{
    let mut line = TextCursor::new(out);
    line.number(b"fault: spread ", numbers.0);
    line.number(b" ", numbers.1);
    line.number(b" ", numbers.2);
    line.number(b" ", numbers.3);
    add_help(&mut line, front, help);
    line.end()
}

/// Writes that a ring can't hold the spread of the lines.
pub(super) fn spread_note(
    front: &[u8],
    slow: u16,
    fast: u16,
    slip: u32,
    ring: u16,
    out: &mut [u8],
) -> usize
    requires front { length front.now ≤ 8 }
    requires room { 256 ≤ length out.old }
    ensures within { result ≤ 256 }
    ensures line { take result out.new ≡ limit_text front.now (ScriptFault.Spread slow fast slip ring) }
{
    let mut help = [0u8; HELP_ROOM];
    let help_end = spread_help(slow, fast, slip, &mut help);
    spread_line(front, (slow, fast, slip, ring), &help[..help_end], out)
}

/// Writes that a lag is too short, and the least one, with this help.
fn lag_line(front: &[u8], lag: u16, least: u32, help: &[u8], out: &mut [u8]) -> usize
    requires front { length front.now ≤ 8 }
    requires help { length help.now ≤ 128 }
    requires room { 256 ≤ length out.old }
    ensures within { result ≤ 256 }
    ensures line { take result out.new ≡ codes "fault: lag " ++ decimal lag ++ codes " least "
        ++ decimal least ++ codes "\nhelp: " ++ front.now ++ help.now ++ codes "\n" }
{
    let mut line = TextCursor::new(out);
    line.number(b"fault: lag ", lag);
    line.number(b" least ", least);
    add_help(&mut line, front, help);
    line.end()
}

/// Writes that the lag is too short.
pub(super) fn lag_note(
    front: &[u8],
    lag: u16,
    least: u32,
    slow: u16,
    slip: u32,
    out: &mut [u8],
) -> usize
    requires front { length front.now ≤ 8 }
    requires room { 256 ≤ length out.old }
    ensures within { result ≤ 256 }
    ensures line { take result out.new ≡ limit_text front.now (ScriptFault.Lag lag least slow slip) }
{
    let mut help = [0u8; HELP_ROOM];
    let help_end = lag_help(slow, slip, least, &mut help);
    lag_line(front, lag, least, &help[..help_end], out)
}
