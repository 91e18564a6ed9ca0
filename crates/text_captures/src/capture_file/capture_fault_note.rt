//! The note on the first fault of a capture.
ghost use Rattle.std.specs.Prelude.{◌≡◌, ◌≤◌, ◌+◌, length, take};
ghost use Rattle.text_report.specs.TextCursor.{Extends, HasTextRoom};
ghost use Rattle.text_captures.specs.capture_file.Texts.{head_fault_text, head_help_text, record_fault_text};
ghost use Rattle.text_captures.specs.capture_file.Texts.{fault_text};

use crate::capture_file::capture_form::{CaptureFault, HeadFault, RecordFault};
use text_report::TextCursor;

/// Adds what is wrong with a head.
fn add_head_fault(line: &mut TextCursor, fault: HeadFault)
    requires { HasTextRoom line.old 16 }
    ensures text { Extends line.old line.new (head_fault_text fault) }
    ensures end { line.new.at ≤ line.old.at + 16 }
{
    match fault {
        HeadFault::Cut => line.text(b"cut"),
        HeadFault::PcapNg => line.text(b"pcapng"),
        HeadFault::Magic => line.text(b"magic"),
        HeadFault::Version => line.text(b"version"),
        HeadFault::Link { link } => {
            line.number(b"link ", link);
        }
        HeadFault::Fcs { octets } => {
            line.number(b"fcs ", octets);
        }
    }
}

/// Adds what is said of how to make a capture whose frames aren't Ethernet.
fn add_head_help(line: &mut TextCursor, fault: HeadFault)
    requires { HasTextRoom line.old 92 }
    ensures text { Extends line.old line.new (head_help_text fault) }
    ensures end { line.new.at ≤ line.old.at + 92 }
{
    match fault {
        HeadFault::Link { link: 171 } => line.text(
            b"help: these are GFP frames, as gfp writes them; frames reads Ethernet, as capture writes it\n",
        ),
        HeadFault::Link { .. } => line.text(b"help: frames reads Ethernet, which is link type 1\n"),
        _ => {}
    }
}

/// Adds what is wrong with a record.
fn add_record_fault(line: &mut TextCursor, fault: RecordFault)
    requires { HasTextRoom line.old 32 }
    ensures text { Extends line.old line.new (record_fault_text fault) }
    ensures end { line.new.at ≤ line.old.at + 32 }
{
    match fault {
        RecordFault::Cut => line.text(b"cut"),
        RecordFault::Snapped => line.text(b"snapped"),
        RecordFault::Length { octets } => {
            line.number(b"length ", octets);
        }
        RecordFault::Late => line.text(b"late"),
    }
}

/// Writes the note on a fault.
pub fn fault_note(fault: CaptureFault, out: &mut [u8]) -> usize
    requires { 128 ≤ length out.old }
    ensures within { result ≤ 128 }
    ensures line { take result out.new ≡ fault_text fault }
{
    let mut line = TextCursor::new(out);
    match fault {
        CaptureFault::Head(fault) => {
            line.text(b"fault: head: ");
            add_head_fault(&mut line, fault);
            line.text(b"\n");
            add_head_help(&mut line, fault);
        }
        CaptureFault::Record { number, fault } => {
            line.number(b"fault: record ", number);
            line.text(b": ");
            add_record_fault(&mut line, fault);
            line.text(b"\n");
        }
    }
    line.end()
}
