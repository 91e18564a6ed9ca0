//! How an input is refused for a line that is faulty, in any language of lines that is a table.
ghost use Rattle.std.specs.Prelude.{◌≡◌, ◌≤◌, length};
ghost use Rattle.text_lines.specs.LineFaults.{kind_of};
ghost use Rattle.text_help.specs.LineHelpTexts.{fault_text};
ghost use Rattle.command_parts.specs.FaultTexts.{line_text};

use crate::fault_notes::{NOTE_ROOM, line_note};
use crate::stop_and_status::{Fault, Refusal};
use text_help::{LineWords, OwnFault, line_help};
use text_lines::{LineFault, LineKind};

/// Room for what is said of how to write a line.
const HELP_ROOM: usize = 128;

/// A line of an input is faulty, and `help` says how to write it.
pub fn line_fault(number: u64, kind: LineKind, help: &[u8]) -> Fault
    requires { length help.now ≤ 200 }
    ensures why { result.why ≡ Refusal.Line }
    ensures note { result.note.items ≡ line_text number kind help.now }
{
    let mut note = [0u8; NOTE_ROOM];
    let end = line_note(number, kind, help, &mut note);
    Fault::new(Refusal::Line, &note[..end])
}

/// A line of an input is faulty, and the language says how to write it.
pub fn faulty_line<K: LineWords, O: OwnFault>(number: u64, fault: LineFault<K, O>) -> Fault
    ensures why { result.why ≡ Refusal.Line }
    ensures note { result.note.items
        ≡ line_text number (kind_of fault) (fault_text K.text K.all O.told fault) }
{
    let mut help = [0u8; HELP_ROOM];
    let end = line_help(fault, &mut help);
    line_fault(number, fault.kind(), &help[..end])
}
