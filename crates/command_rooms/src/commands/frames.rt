//! `frames`: a capture is read, and the line of a script is written of each frame in it.
ghost use Rattle.std.specs.Prelude.{◌≡◌, None, map, string_bytes};
ghost use Rattle.text_captures.specs.capture_file.Texts.{fault_text};
ghost use Rattle.command_parts.specs.Task.{reads};
ghost use Rattle.command_parts.specs.Ends.{lent};
ghost use Rattle.command_parts.specs.Gives.{GivesAlone};
ghost use Rattle.command_rooms.specs.commands.Frames.{frames_words, frames_answer};

use crate::walk_command::WalkCommand;
use command_parts::{Fault, Ran, Refusal, Stop, read_input};
use octet_io::{ByteSink, ByteSource};
use std::alloc::Global;
use text_captures::capture_file::{CaptureFault, fault_note, read_capture, write_frames};
use walk_engine::walk_core::Walk;

/// Room for a note.
const NOTE_ROOM: usize = 128;

/// The words `frames`.
pub fn words(words: &[String]) -> Option<WalkCommand>
    ensures { result ≡ frames_words (map string_bytes words.now) }
{
    match words {
        [word] if word.as_str() == "frames" => Some(WalkCommand::Frames),
        _ => None,
    }
}

/// A part of a capture is faulty.
fn capture_fault(fault: CaptureFault) -> Fault
    ensures why { result.why ≡ Refusal.Line }
    ensures note { result.note.items ≡ fault_text fault }
{
    let mut note = [0u8; NOTE_ROOM];
    let end = fault_note(fault, &mut note);
    Fault::new(Refusal::Line, &note[..end])
}

/// Reads a capture and writes the line of each frame in it.
pub fn frames<S: ByteSource, K: ByteSink>(
    alloc: Global,
    capture: &mut S,
    out: &mut K,
) -> Result<Ran<Option<Walk>>, Stop>
    ensures { GivesAlone (lent S.left S.faults capture.old capture.new)
        (lent K.written K.faults out.old out.new)
        (reads frames_answer) (λ walk. walk ≡ None) result }
{
    let octets = match read_input(alloc, capture) {
        Ok(octets) => octets,
        Err(stop) => return Err(stop),
    };
    let form = match read_capture(octets.as_slice()) {
        Ok(form) => form,
        Err(fault) => return Err(Stop::Refused(capture_fault(fault))),
    };
    let written = write_frames(form, octets.as_slice(), out);
    Ok(Ran {
        made: None,
        written,
    })
}
