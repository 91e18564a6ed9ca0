//! How a text that says no script is refused: for the line that is faulty, or, if the script is wrong as a
//! whole, as beyond a limit.
ghost use Rattle.std.specs.Prelude.{◌≡◌, ◌≢◌, ◌≤◌, length};
ghost use Rattle.text_scripts.specs.declared.script_read.script_fault.ScriptFault.{ScriptFault};
ghost use Rattle.command_parts.specs.FaultTexts.{kind_of, fault_text, limit_text, why_of, IsRefusedFor};

use crate::fault_notes::{NOTE_ROOM, lag_note, slip_note, spread_note};
use crate::refusal_of_line::line_fault;
use crate::script_helps::line_help;
use crate::stop_and_status::{Fault, Refusal, Stop};
use text_lines::LineKind;
use text_scripts::script_read::{LineFault, ScriptFault, SizesFault};

/// Room for what is said of how to write a line.
const HELP_ROOM: usize = 200;

/// The kind of what is wrong with a line of a script.
fn kind_of(fault: LineFault) -> LineKind
    ensures { result ≡ kind_of fault }
{
    match fault {
        LineFault::First | LineFault::Count { .. } => LineKind::Word,
        LineFault::Field(fault) => fault.kind(),
        LineFault::Sizes(SizesFault::Digits) | LineFault::LongNumber | LineFault::LongerPath =>
            LineKind::Number,
        LineFault::Missing(_) => LineKind::Missing,
        LineFault::Sizes(SizesFault::Count | SizesFault::Range)
        | LineFault::Twice(_)
        | LineFault::FullLine { .. }
        | LineFault::FullPath
        | LineFault::TooMany { .. } => LineKind::Range,
        LineFault::Part { .. }
        | LineFault::Stands { .. }
        | LineFault::ContainerFirst
        | LineFault::FailureBefore { .. }
        | LineFault::LossBefore { .. }
        | LineFault::FrameBefore { .. }
        | LineFault::CommandBefore { .. } => LineKind::Order,
    }
}

/// A line of a script is faulty.
fn script_line_fault(number: u32, fault: LineFault) -> Fault
    ensures why { result.why ≡ Refusal.Line }
    ensures note { result.note.items ≡ fault_text (ScriptFault.Line number fault) }
{
    let mut help = [0u8; HELP_ROOM];
    let end = line_help(fault, &mut help);
    line_fault(u64::from(number), kind_of(fault), &help[..end])
}

/// What is wrong with a script as a whole is beyond a limit.
fn limit_fault(note: &[u8]) -> Fault
    requires { length note.now ≤ 256 }
    ensures why { result.why ≡ Refusal.Limit }
    ensures note { result.note.items ≡ note.now }
{
    Fault::new(Refusal::Limit, note)
}

/// What is wrong with a script, which a front of at most eight octets names before what is said of how to write slips,
/// spread and lag.
pub fn script_refusal(front: &[u8], fault: ScriptFault) -> Fault
    requires { length front.now ≤ 8 }
    ensures why { result.why ≡ why_of fault }
    ensures note { result.note.items ≡ limit_text front.now fault }
{
    let mut note = [0u8; NOTE_ROOM];
    match fault {
        ScriptFault::Line { number, fault } => script_line_fault(number, fault),
        ScriptFault::Slip { line, window, slip } => {
            let end = slip_note(front, line, window, slip, &mut note);
            limit_fault(&note[..end])
        }
        ScriptFault::Spread {
            slow,
            fast,
            slip,
            ring,
        } => {
            let end = spread_note(front, slow, fast, slip, ring, &mut note);
            limit_fault(&note[..end])
        }
        ScriptFault::Lag {
            lag,
            least,
            slow,
            slip,
        } => {
            let end = lag_note(front, lag, least, slow, slip, &mut note);
            limit_fault(&note[..end])
        }
        ScriptFault::Memory => limit_fault(b"fault: no memory\n"),
    }
}

/// Why a text that says no script stops a command.
pub fn stop_of(fault: ScriptFault) -> Stop
    ensures refused { fault ≢ ScriptFault.Memory → IsRefusedFor fault result }
    ensures short { fault ≡ ScriptFault.Memory → result ≡ Stop.Memory }
{
    match fault {
        ScriptFault::Memory => Stop::Memory,
        fault => Stop::Refused(script_refusal(b"", fault)),
    }
}
