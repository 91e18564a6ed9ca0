//! The notes on what is wrong with two scripts, put together in a slice with room for one.
ghost use Rattle.std.specs.Prelude.{◌≡◌, ◌≢◌, ◌≤◌, ◌+◌, ◌++◌, codes, decimal, length, take};
ghost use Rattle.text_report.specs.TextCursor.{Extends, HasTextRoom};
ghost use Rattle.command_parts.specs.Common.{IsRefusedAs};
ghost use Rattle.text_pairs.specs.declared.script_pair.PairFault.{PairFault};
ghost use Rattle.text_pairs.specs.Faults.{lags_text, pair_fault_text, unlike_text, way_front};
ghost use Rattle.text_pairs.specs.Pieces.{no_memory};
ghost use Rattle.text_pairs.specs.Inputs.{IsPairRefused};

use crate::script_pair::PairFault;
use command_parts::{Fault, Refusal, Stop, line_fault, script_refusal, stop_of};
use law_pair::Way;
use text_lines::LineKind;
use text_report::TextCursor;

/// Room for a note.
const NOTE_ROOM: usize = 256;

/// What is said of how to write a text that no line divides.
const DIVISION_HELP: &[u8] = b"a line other divides the two scripts";

/// What a way is called in front of what is said of its script.
fn way_front(way: Way) -> &'static [u8]
    ensures front { result.now ≡ way_front way }
    ensures short { length result.now ≤ 7 }
{
    match way {
        Way::There => b"there: ",
        Way::Back => b"back: ",
    }
}

/// Writes that the script of a way has lost lines.
fn lost_note(way: Way, out: &mut [u8]) -> usize
    requires { 256 ≤ length out.old }
    ensures within { result ≤ 256 }
    ensures line { take result out.new ≡ pair_fault_text (PairFault.Lost way) }
{
    let mut line = TextCursor::new(out);
    line.text(b"fault: pair lost\nhelp: ");
    line.text(way_front(way));
    line.text(
        b"a script of a pair has no lost lines; failures of the other way lose its return packets\n",
    );
    line.end()
}

/// Writes that the script of a way has event lines.
fn events_note(way: Way, out: &mut [u8]) -> usize
    requires { 256 ≤ length out.old }
    ensures within { result ≤ 256 }
    ensures line { take result out.new ≡ pair_fault_text (PairFault.Events way) }
{
    let mut line = TextCursor::new(out);
    line.text(b"fault: pair events\nhelp: ");
    line.text(way_front(way));
    line.text(b"a script of a pair has no event lines; both ways drain together\n");
    line.end()
}

/// Adds two numbers that have to be the same.
fn unlike_numbers(line: &mut TextCursor, there: u32, back: u32)
    requires { HasTextRoom line.old 60 }
    ensures text { Extends line.old line.new (unlike_text there back) }
    ensures end { line.new.at ≤ line.old.at + 60 }
{
    line.decimal(there);
    line.text(b" ");
    line.decimal(back);
    line.text(b"\nhelp: both scripts have one ");
}

/// Adds which lags there may be.
fn lags(line: &mut TextCursor, least: u32)
    requires { HasTextRoom line.old 20 }
    ensures text { Extends line.old line.new (lags_text least) }
    ensures end { line.new.at ≤ line.old.at + 20 }
{
    if least > 256 {
        line.text(b"at most");
    } else {
        line.number(b"from ", least);
        line.text(b" to");
    }
}

/// Writes that the lags don't go together.
fn lag_note(there: u16, back: u16, least: u32, out: &mut [u8]) -> usize
    requires { 256 ≤ length out.old }
    ensures within { result ≤ 256 }
    ensures line { take result out.new ≡ pair_fault_text (PairFault.Lag there back least) }
{
    let mut line = TextCursor::new(out);
    line.text(b"fault: pair lag ");
    unlike_numbers(&mut line, u32::from(there), u32::from(back));
    line.text(b"lag, ");
    lags(&mut line, least);
    line.text(b" 256\n");
    line.end()
}

/// Writes that the numbers of ticks differ.
fn ticks_note(there: u32, back: u32, out: &mut [u8]) -> usize
    requires { 256 ≤ length out.old }
    ensures within { result ≤ 256 }
    ensures line { take result out.new ≡ pair_fault_text (PairFault.Ticks there back) }
{
    let mut line = TextCursor::new(out);
    line.text(b"fault: pair ticks ");
    unlike_numbers(&mut line, there, back);
    line.text(b"number of ticks\n");
    line.end()
}

/// Writes a number of runs, and again behind what is said of it.
fn runs_line(runs: u32, help: &[u8], out: &mut [u8]) -> usize
    requires help { length help.now ≤ 100 }
    requires room { 256 ≤ length out.old }
    ensures within { result ≤ 256 }
    ensures line { take result out.new ≡
        codes "fault: pair runs " ++ decimal runs ++ help.now ++ decimal runs ++ codes "\n" }
{
    let mut line = TextCursor::new(out);
    line.number(b"fault: pair runs ", runs);
    line.number(help, runs);
    line.text(b"\n");
    line.end()
}

/// Writes that a way loses its return packets in too many runs.
fn runs_note(runs: u32, out: &mut [u8]) -> usize
    requires { 256 ≤ length out.old }
    ensures within { result ≤ 256 }
    ensures line { take result out.new ≡ pair_fault_text (PairFault.Runs runs) }
{
    let help = b"\nhelp: a script has at most 256 lost lines, and this way needs ";
    runs_line(runs, help, out)
}

/// What is wrong with both scripts together is beyond a limit.
fn limit_refusal(note: &[u8]) -> Stop
    requires { length note.now ≤ 256 }
    ensures { IsRefusedAs Refusal.Limit note.now result }
{
    Stop::Refused(Fault::new(Refusal::Limit, note))
}

/// Why a text that doesn't say two scripts stops a command, or two scripts of which one way alone is no script.
pub fn stop_of_pair(fault: PairFault) -> Stop
    ensures refused { fault ≢ no_memory → IsPairRefused fault result }
    ensures short { fault ≡ no_memory → result ≡ Stop.Memory }
{
    let mut note = [0u8; NOTE_ROOM];
    match fault {
        PairFault::Script(fault) => stop_of(fault),
        PairFault::Undivided { number } => Stop::Refused(line_fault(
            u64::from(number),
            LineKind::Missing,
            DIVISION_HELP,
        )),
        PairFault::Limit { way, fault } => Stop::Refused(script_refusal(way_front(way), fault)),
        PairFault::Lost { way } => {
            let end = lost_note(way, &mut note);
            limit_refusal(&note[..end])
        }
        PairFault::Events { way } => {
            let end = events_note(way, &mut note);
            limit_refusal(&note[..end])
        }
        PairFault::Lag { there, back, least } => {
            let end = lag_note(there, back, least, &mut note);
            limit_refusal(&note[..end])
        }
        PairFault::Ticks { there, back } => {
            let end = ticks_note(there, back, &mut note);
            limit_refusal(&note[..end])
        }
        PairFault::Runs { runs } => {
            let end = runs_note(runs, &mut note);
            limit_refusal(&note[..end])
        }
    }
}
