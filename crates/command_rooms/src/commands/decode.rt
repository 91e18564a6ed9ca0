//! `decode`: the packets in the H4 octets of a line are found, and a line is written of each.
ghost use Rattle.std.specs.Prelude.{◌≡◌, ℕ, ◌+◌, ◌<◌, ◌≤◌, List, [], ◌∷◌, ◌++◌, length, None, IfOk, OnOk, OnErr, map};
ghost use Rattle.std.specs.Prelude.{string_bytes};
ghost use Rattle.law_model.specs.Common.{Appends, AppendsPart, decoded_text};
ghost use Rattle.text_captures.specs.packet_trace.Decoder.{DecoderStands};
ghost use Rattle.command_parts.specs.Task.{reads};
ghost use Rattle.command_parts.specs.Ends.{lent};
ghost use Rattle.command_parts.specs.Gives.{GivesAlone};
ghost use Rattle.command_rooms.specs.commands.Decode.{decode_words, decode_answer};
ghost use Rattle.command_rooms.specs.DecodingSoFar.{HasLines, HasLinesPart};

use crate::hex_text::{HexTextFault, read_octets};
use crate::walk_command::WalkCommand;
use command_parts::{Ran, Stop, line_fault, read_input};
use octet_io::{ByteSink, ByteSource, Failed, put_all};
use std::alloc::Global;
use text_captures::packet_trace::{FOUND_ROOM, H4Decoder, end_line, found_line};
use text_lines::LineKind;
use walk_engine::walk_core::Walk;

/// How a line is written.
const HELP: &[u8] = b"a line is an even number of hexadecimal digits";

/// The words `decode`.
pub fn words(words: &[String]) -> Option<WalkCommand>
    ensures { result ≡ decode_words (map string_bytes words.now) }
{
    match words {
        [word] if word.as_str() == "decode" => Some(WalkCommand::Decode),
        _ => None,
    }
}

/// Gives an H4 octet to the decoder, and writes the line of what it finds. The answer is the number of lines.
fn take_h4<K: ByteSink>(
    h4: u8,
    decoder: &mut H4Decoder,
    line: &mut [u8; FOUND_ROOM],
    out: &mut K,
) -> Result<u64, Failed>
    requires { decoder.old.given < 4294967295 }
    ensures given { decoder.new.given ≡ decoder.old.given + 1 }
    ensures stands { (before : List ℕ) → DecoderStands decoder.old before →
        DecoderStands decoder.new (before ++ h4 ∷ []) }
    ensures ok { (before : List ℕ) (start : K) (packets : ℕ) → DecoderStands decoder.old before →
        HasLines K.written K.faults before start out.old packets →
        IfOk result (λ n. HasLines K.written K.faults (before ++ h4 ∷ [])
        start out.new (packets + n)) }
    ensures err { (before : List ℕ) (start : K) (packets : ℕ) → DecoderStands decoder.old before →
        HasLines K.written K.faults before start out.old packets →
        OnErr result (HasLinesPart K.written K.faults (before ++ h4 ∷ []) start out.new) }
    ensures one { IfOk result (λ n. n ≤ 1) }
{
    let Some((place, found)) = decoder.octet(h4) else {
        return Ok(0);
    };
    let end = found_line(place, found, line);
    match put_all(out, &line[..end]) {
        Ok(()) => Ok(1),
        Err(Failed) => Err(Failed),
    }
}

/// Writes a line for each control packet in the H4 octets of a line, and the last line.
fn write_packets<K: ByteSink>(octets: &[u8], out: &mut K) -> Result<(), Failed>
    requires { length octets.now ≤ 33554432 }
    ensures ok { OnOk result (Appends K.written K.faults out.old out.new (decoded_text octets.now)) }
    ensures err { OnErr result (AppendsPart K.written K.faults out.old out.new (decoded_text octets.now)) }
{
    let mut decoder = H4Decoder::new();
    let mut line = [0u8; FOUND_ROOM];
    let mut packets = 0;
    for h4 in octets {
        match take_h4(*h4, &mut decoder, &mut line, out) {
            Ok(n) => packets += n,
            Err(Failed) => return Err(Failed),
        }
    }
    let end = end_line(octets.len(), packets, &mut line);
    put_all(out, &line[..end])
}

/// Reads the H4 octets of a line and writes the control packets in them.
pub fn decode<S: ByteSource, K: ByteSink>(
    alloc: Global,
    script: &mut S,
    out: &mut K,
) -> Result<Ran<Option<Walk>>, Stop>
    ensures { GivesAlone (lent S.left S.faults script.old script.new)
        (lent K.written K.faults out.old out.new)
        (reads decode_answer) (λ walk. walk ≡ None) result }
{
    let text = match read_input(alloc, script) {
        Ok(text) => text,
        Err(stop) => return Err(stop),
    };
    let octets = match read_octets(alloc, text.as_slice()) {
        Ok(octets) => octets,
        Err(HexTextFault::Memory) => return Err(Stop::Memory),
        Err(HexTextFault::Line { number }) => {
            return Err(Stop::Refused(line_fault(number, LineKind::Hex, HELP)));
        }
    };
    let written = write_packets(octets.as_slice(), out);
    Ok(Ran {
        made: None,
        written,
    })
}
