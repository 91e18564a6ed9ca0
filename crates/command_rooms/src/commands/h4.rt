//! `h4`: a script's walk is made, and the H4 octets are written that its source sends on a line, a line of text
//! for each multiframe of sixteen frames. `decode` reads them; what it finds says `h4_law`.
ghost use Rattle.std.specs.Prelude.{◌≡◌, ◌≤◌, ◌<◌, ◌+◌, ◌-◌, ◌++◌, ◌/◌, ℕ, List, length, IfOk, OnOk, OnErr, map};
ghost use Rattle.std.specs.Prelude.{string_bytes};
ghost use Rattle.law_model.specs.Common.{Appends, AppendsPart, Start, leg_of, begin, IsValid, decoded_text};
ghost use Rattle.law_model.specs.packets.Decode.{packets_in};
ghost use Rattle.law_model.specs.declared.script_types.Script.{Script};
ghost use Rattle.law_walk.specs.Common.{walk_plan, sent_at};
ghost use Rattle.law_headline.specs.WalkTexts.{counts_in};
ghost use Rattle.text_got.specs.TextSoFar.{HasText};
ghost use Rattle.command_words.specs.CommandLineWords.{number_in};
ghost use Rattle.command_parts.specs.Task.{reads, writes};
ghost use Rattle.command_parts.specs.Ends.{lent};
ghost use Rattle.command_parts.specs.Gives.{GivesAlone};
ghost use Rattle.command_rooms.specs.commands.H4.{line_of, h4_words, h4_octets, multiframe_text, h4_text, no_line_text};
ghost use Rattle.command_rooms.specs.commands.H4.{h4_answer, sent_packets};
ghost use Rattle.command_rooms.specs.commands.Decode.{decode_answer};
ghost use Rattle.command_rooms.specs.HandedWalk.{HandsScript};

use crate::turns::ready_walk::read_walk;
use crate::turns::watched_turns::{Turn, Watcher, drive, make_turn};
use crate::walk_command::WalkCommand;
use command_parts::{Fault, Ran, Refusal, Stop};
use command_words::number_within;
use law_model::{EventLine, Silent};
use octet_io::{ByteSink, ByteSource, Failed, take_back};
use std::alloc::{AllocError, Global};
use text_got::GotLines;
use text_report::TextCursor;
use walk_engine::walk_core::Walk;

/// The command by the number of a line.
fn line_of(word: &[u8]) -> Option<WalkCommand>
    ensures { result ≡ line_of (number_in 0 127 word.now) }
{
    let line = number_within(word, 0, 127)? as u8;
    Some(WalkCommand::H4 { line })
}

/// The words `h4 LINE`.
pub fn words(words: &[String]) -> Option<WalkCommand>
    ensures { result ≡ h4_words (map string_bytes words.now) }
{
    match words {
        [word, line] if word.as_str() == "h4" => line_of(line.as_bytes()),
        _ => None,
    }
}

/// The H4 octet of a line in the frame that was made last.
fn last_octet(walk: &Walk, line: u8) -> u8
    requires valid { IsValid walk.now.script }
    requires some { 0 < walk.now.counts.ticks }
    ensures { result ≡ (sent_at (leg_of walk.now.script) line (walk.now.counts.ticks - 1)).h4 }
{
    let frame = walk.totals().ticks - 1;
    let mfi1 = (frame % 16) as u8;
    if frame < 8 {
        // No packet was begun.
        return mfi1;
    }
    let nibbles = walk.live().way().table().packet(line).nibbles();
    16 * nibbles[((frame - 8) % 16) as usize] + mfi1
}

/// The H4 octets that are sent on a line.
#[derive(Drop)]
struct SentOctets {
    line: u8,
    octets: Vec<u8>,
}

impl Watcher for SentOctets {
    type Fault = AllocError;

    ghost use Rattle.std.specs.Prelude.{◌≡◌, ℕ};
    ghost use Rattle.command_rooms.specs.commands.H4.{h4_octets};

    // the line
    ghost Before = { ℕ };

    ghost has_seen = { λ sent line walk. (sent.line ≡ line)
        × (sent.octets.items ≡ h4_octets walk.script line walk.counts.ticks) };

    fn turn(&mut self, walk: &mut Walk, turn: Turn) -> Result<(), AllocError> {
        let ticks = walk.totals().ticks;
        make_turn(walk, turn, &mut Silent);
        if walk.totals().ticks > ticks {
            self.octets.push(last_octet(walk, self.line))?;
        }
        Ok(())
    }
}

/// Makes a walk. Answers the H4 octets that its source sends on a line.
fn sent_octets(
    alloc: Global,
    walk: &mut Walk,
    lines: &[EventLine],
    ticks: u32,
    line: u8,
) -> Result<Vec<u8>, AllocError>
    requires valid { IsValid walk.old.script }
    requires events { lines.now ≡ walk.old.script.events }
    requires begun { walk.old.counts ≡ begin (walk_plan (leg_of walk.old.script)) }
    requires ticks { ticks ≡ walk.old.script.config.ticks }
    ensures script { walk.new.script ≡ walk.old.script }
    ensures counts { OnOk result (walk.new.counts ≡ counts_in walk.old.script) }
    ensures octets { IfOk result (λ octets.
        octets.items ≡ h4_octets walk.old.script line (counts_in walk.old.script).ticks) }
{
    let octets = Vec::new(alloc);
    let mut sent = SentOctets { line, octets };
    drive(walk, lines, ticks, &mut sent)?;
    Ok(sent.octets)
}

/// Writes the line of text of a multiframe.
fn write_multiframe<K: ByteSink>(octets: &[u8], m: usize, got: &mut GotLines<K>)
    requires { m < (length octets.now + 15) / 16 }
    ensures { (start : Start) (before : List ℕ) →
        HasText K.written K.faults got.old start before →
        HasText K.written K.faults got.new start (before ++ multiframe_text octets.now m) }
{
    let first = 16 * m;
    let end = octets.len().min(first + 16);
    let mut room = [0u8; 33];
    let mut line = TextCursor::new(&mut room);
    line.hex(&octets[first..end]);
    line.text(b"\n");
    let size = line.end();
    got.line(&room[..size]);
}

/// Writes the lines of text of all multiframes.
fn write_multiframes<K: ByteSink>(octets: &[u8], got: &mut GotLines<K>)
    ensures { (start : Start) (before : List ℕ) →
        HasText K.written K.faults got.old start before →
        HasText K.written K.faults got.new start (before ++ h4_text octets.now) }
{
    for m in 0..octets.len().div_ceil(16) {
        write_multiframe(octets, m, got);
    }
}

/// Writes H4 octets as lines of text.
fn write_octets<K: ByteSink>(octets: &[u8], out: &mut K) -> Result<(), Failed>
    ensures ok { OnOk result (Appends K.written K.faults out.old out.new (h4_text octets.now)) }
    ensures err { OnErr result (AppendsPart K.written K.faults out.old out.new (h4_text octets.now)) }
{
    let mut got = GotLines::new(out);
    write_multiframes(octets, &mut got);
    let (back, end) = got.finish();
    take_back(back);
    end
}

/// What is wrong where a script has no line of a number.
fn no_line(line: u8, lines: u8) -> Fault
    requires { 1 ≤ lines }
    ensures why { result.why ≡ Refusal.Limit }
    ensures note { result.note.items ≡ no_line_text line lines }
{
    let mut room = [0u8; 128];
    let mut note = TextCursor::new(&mut room);
    note.text(b"fault: h4 line ");
    note.decimal(line);
    note.text(b"\nhelp: LINE is from 0 to ");
    note.decimal(lines - 1);
    note.text(b"\n");
    let end = note.end();
    Fault::new(Refusal::Limit, &room[..end])
}

/// Reads a script, makes its walk and writes the H4 octets that its source sends on a line, where the script has
/// it. All memory is taken before the first octet is written.
pub fn h4<S: ByteSource, K: ByteSink>(
    alloc: Global,
    line: u8,
    script: &mut S,
    out: &mut K,
) -> Result<Ran<Option<Walk>>, Stop>
    requires { line ≤ 127 }
    ensures { GivesAlone (lent S.left S.faults script.old script.new)
        (lent K.written K.faults out.old out.new)
        (reads (h4_answer line))
        (HandsScript (lent S.left S.faults script.old script.new)) result }
{
    let begun = match read_walk(alloc, script) {
        Ok(begun) => begun,
        Err(stop) => return Err(stop),
    };
    let lines = begun.size.lines;
    if line >= lines {
        return Err(Stop::Refused(no_line(line, lines)));
    }
    let mut walk = begun.walk;
    let ticks = begun.size.ticks;
    let octets = match sent_octets(alloc, &mut walk, begun.lines.as_slice(), ticks, line) {
        Ok(octets) => octets,
        Err(AllocError) => return Err(Stop::Memory),
    };
    let written = write_octets(octets.as_slice(), out);
    Ok(Ran {
        made: Some(walk),
        written,
    })
}

/// What `decode` says of the octets that `h4` writes of a line: the packets whose sixteen octets are all sent,
/// from frame 8 on, in order and each once. Packet k says the table that `trace` tells of decision step k.
pub fn h4_law()
    ensures reads { (script : Script) (line frames : ℕ) → IsValid script →
        decode_answer (h4_text (h4_octets script line frames))
        ≡ writes (decoded_text (h4_octets script line frames)) }
    ensures packets { (script : Script) (line frames : ℕ) → IsValid script →
        packets_in (h4_octets script line frames) ≡ sent_packets script line frames }
{}
