//! The frames of a capture as lines of a script.
ghost use Rattle.std.specs.Prelude.{◌≡◌, ◌≤◌, ◌+◌, ◌*◌, ℕ, List, ◌++◌, length, take, drop, replicate, Ok, OnOk, OnErr};
ghost use Rattle.hex.specs.Hex.{encode_lower};
ghost use Rattle.law_model.specs.Common.{Start, Appends, AppendsPart};
ghost use Rattle.text_got.specs.TextSoFar.{HasText};
ghost use Rattle.text_captures.specs.capture_file.Form.{form_of};
ghost use Rattle.text_captures.specs.capture_file.Reading.{filled_up, client_frame, with_fcs, frames_of};
ghost use Rattle.text_captures.specs.capture_file.Texts.{line_start, frame_text, frame_texts};

use crate::capture_file::capture_form::Form;
use crate::capture_file::capture_record::next_record;
use crate::capture_file::record_clock::Clock;
use check_crc32::ethernet_fcs;
use octet_io::{ByteSink, Failed, take_back};
use text_got::GotLines;
use text_report::TextCursor;

/// The octets that a frame without its FCS has at least.
const LEAST: usize = 60;

/// Writes the start of a line.
fn start_line<K: ByteSink>(due: u64, got: &mut GotLines<K>)
    ensures { (start : Start) (before : List ℕ) → HasText K.written K.faults got.old start before →
        HasText K.written K.faults got.new start (before ++ line_start due) }
{
    let mut room = [0u8; 64];
    let mut line = TextCursor::new(&mut room);
    line.number(b"frame ", due);
    line.text(b" ");
    let end = line.end();
    got.line(&room[..end]);
}

/// A frame without its FCS, filled up with zeros where it is short.
fn filled_up<'a>(octets: &'a [u8], room: &'a mut [u8; LEAST]) -> &'a [u8]
    requires { room.old ≡ replicate 60 0 }
    ensures { result.now ≡ filled_up octets.now }
{
    if octets.len() >= LEAST {
        return octets;
    }
    room[..octets.len()].copy_from_slice(octets);
    room
}

/// Writes the digits of a frame and of its FCS.
fn add_checked<K: ByteSink>(octets: &[u8], got: &mut GotLines<K>)
    ensures { (start : Start) (before : List ℕ) → HasText K.written K.faults got.old start before →
        HasText K.written K.faults got.new start
        (before ++ encode_lower (with_fcs octets.now)) }
{
    got.hex(octets);
    got.hex(&ethernet_fcs(octets));
}

/// Writes the digits of a record's frame.
fn add_frame<K: ByteSink>(has_fcs: bool, octets: &[u8], got: &mut GotLines<K>)
    ensures { (start : Start) (before : List ℕ) → HasText K.written K.faults got.old start before →
        HasText K.written K.faults got.new start
        (before ++ encode_lower (client_frame has_fcs octets.now)) }
{
    if has_fcs {
        got.hex(octets);
    } else {
        let mut least = [0u8; LEAST];
        add_checked(filled_up(octets, &mut least), got);
    }
}

/// Writes the line of a record.
fn add_line<K: ByteSink>(has_fcs: bool, due: u64, octets: &[u8], got: &mut GotLines<K>)
    ensures { (start : Start) (before : List ℕ) → HasText K.written K.faults got.old start before →
        HasText K.written K.faults got.new start (before ++ frame_text
        (record { due = due; frame = client_frame has_fcs octets.now })) }
{
    start_line(due, got);
    add_frame(has_fcs, octets, got);
    got.line(b"\n");
}

/// Writes the lines of all records.
fn add_lines<K: ByteSink>(form: Form, body: &[u8], got: &mut GotLines<K>)
    ensures { (start : Start) (before : List ℕ) → HasText K.written K.faults got.old start before →
        HasText K.written K.faults got.new start
        (before ++ frame_texts (frames_of form body.now)) }
{
    let mut clock = Clock::new(form.unit);
    let mut rest = body;
    while let Some(record) = next_record(form.order, rest) {
        rest = record.rest;
        let due = clock.due(record.head);
        add_line(form.has_fcs, due, record.octets, got);
    }
}

/// Writes a `frame` line for each record of a capture, whose head says its form.
pub fn write_frames<K: ByteSink>(form: Form, octets: &[u8], out: &mut K) -> Result<(), Failed>
    requires { form_of octets.now ≡ Ok form }
    ensures ok { OnOk result (Appends K.written K.faults out.old out.new
        (frame_texts (frames_of form (drop 24 octets.now)))) }
    ensures err { OnErr result (AppendsPart K.written K.faults out.old out.new
        (frame_texts (frames_of form (drop 24 octets.now)))) }
{
    let mut got = GotLines::new(out);
    add_lines(form, &octets[24..], &mut got);
    let (back, end) = got.finish();
    take_back(back);
    end
}
