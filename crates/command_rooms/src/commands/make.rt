//! `make`: a load from a number is run, and what came of it is written in three lines.
ghost use Rattle.std.specs.Prelude.{◌≡◌, ◌≤◌, ◌*◌, length, take, sum, OnOk, OnErr, map, string_bytes};
ghost use Rattle.law_model.specs.Limits.{longest_frame};
ghost use Rattle.law_model.specs.session.Leg.{leg_of};
ghost use Rattle.octet_io.specs.Transfer.{Appends, AppendsPart};
ghost use Rattle.law_model.specs.session.ValidScript.{IsValid, IsWithin};
ghost use Rattle.law_model.specs.session.Counts.{begin, drain, bound};
ghost use Rattle.text_scripts.specs.make_load.Load.{load};
ghost use Rattle.law_walk.specs.Walk.{walk_plan};
ghost use Rattle.law_walk.specs.DeliveredFrames.{delivered_of};
ghost use Rattle.command_parts.specs.Task.{makes};
ghost use Rattle.command_parts.specs.Ends.{lent, no_source};
ghost use Rattle.command_parts.specs.Gives.{GivesAlone};
ghost use Rattle.command_rooms.specs.HandedWalk.{IsWalkOf};
ghost use Rattle.command_rooms.specs.commands.Make.{octet_count, octet_sum, made_text, sum_text, lines_text};
ghost use Rattle.command_rooms.specs.commands.Make.{load_of, make_words};
ghost use Rattle.command_rooms.specs.commands.Make.{make_answer};
ghost use Rattle.command_words.specs.CommandLineWords.{number_in};
ghost use Rattle.law_model.specs.Common.{most_drawn_ticks};

use crate::walk_command::WalkCommand;
use command_parts::{Ran, Stop};
use command_words::number_within;
use law_model::{FrameOut, MOST_DRAWN_TICKS, Totals};
use octet_io::{ByteSink, Failed, put_all};
use std::alloc::Global;
use text_report::{TextCursor, total_line};
use walk_engine::walk_core::Walk;

/// The load of three numbers.
fn load_of(number: &[u8], lines: &[u8], ticks: &[u8]) -> Option<WalkCommand>
    ensures { result ≡ load_of (number_in 0 18446744073709551615 number.now)
        (number_in 1 64 lines.now) (number_in 1 most_drawn_ticks ticks.now) }
{
    let number = number_within(number, 0, u64::MAX)?;
    let lines = number_within(lines, 1, 64)? as u8;
    let ticks = number_within(ticks, 1, MOST_DRAWN_TICKS)? as u32;
    Some(WalkCommand::Make {
        number,
        lines,
        ticks,
    })
}

/// The words `make NUMBER LINES TICKS`.
pub fn words(words: &[String]) -> Option<WalkCommand>
    ensures { result ≡ make_words (map string_bytes words.now) }
{
    match words {
        [word, number, lines, ticks] if word.as_str() == "make" => {
            load_of(number.as_bytes(), lines.as_bytes(), ticks.as_bytes())
        }
        _ => None,
    }
}

/// Room for the three lines.
const MADE_ROOM: usize = 256;

/// Counts the octets of the frames that it is given, and adds them up. Both stop at 2^64 - 1.
#[derive(Drop)]
struct SumOut {
    octets: u64,
    total: u64,
}

impl FrameOut for SumOut {
    ghost use Rattle.command_rooms.specs.commands.Make.{HasSummed};

    ghost stands_for = { λ out start frames. HasSummed out.octets out.total frames };

    fn frame(&mut self, frame: &[u8]) {
        self.octets = self.octets.saturating_add(frame.len() as u64);
        self.total = self.total.saturating_add(sum_of(frame));
    }
}

/// The sum of octets.
fn sum_of(octets: &[u8]) -> u64
    requires { length octets.now ≤ longest_frame }
    ensures sum { result ≡ sum octets.now }
    ensures small { result ≤ 255 * length octets.now }
{
    let mut total: u64 = 0;
    for octet in octets {
        total += u64::from(*octet);
    }
    total
}

/// Writes the first line: what was made.
fn made_line(lines: u8, ticks: u32, out: &mut [u8]) -> usize
    requires { 64 ≤ length out.old }
    ensures within { result ≤ 64 }
    ensures line { take result out.new ≡ made_text lines ticks }
{
    let mut line = TextCursor::new(out);
    line.text(b"made lines ");
    line.decimal(lines);
    line.text(b" ticks ");
    line.decimal(ticks);
    line.text(b"\n");
    line.end()
}

/// Writes the last line: how many octets were delivered, and their sum.
fn sum_line(octets: u64, total: u64, out: &mut [u8]) -> usize
    requires { 64 ≤ length out.old }
    ensures within { result ≤ 64 }
    ensures line { take result out.new ≡ sum_text octets total }
{
    let mut line = TextCursor::new(out);
    line.text(b"octets ");
    line.decimal(octets);
    line.text(b" sum ");
    line.decimal(total);
    line.text(b"\n");
    line.end()
}

/// Writes the three lines.
fn write_made<K: ByteSink>(
    lines: u8,
    ticks: u32,
    totals: &Totals,
    sums: &SumOut,
    out: &mut K,
) -> Result<(), Failed>
    ensures ok { let text = lines_text lines ticks totals.now sums.now.octets sums.now.total in
        OnOk result (Appends K.written K.faults out.old out.new text) }
    ensures err { let text = lines_text lines ticks totals.now sums.now.octets sums.now.total in
        OnErr result (AppendsPart K.written K.faults out.old out.new text) }
{
    let mut text = [0u8; MADE_ROOM];
    let first = made_line(lines, ticks, &mut text);
    let second = first + total_line(totals, &mut text[first..]);
    let third = second + sum_line(sums.octets, sums.total, &mut text[second..]);
    put_all(out, &text[..third])
}

/// Drains a walk of which no event was made, and counts the octets of the frames that it delivers.
fn drain_sums(walk: &mut Walk) -> SumOut
    requires valid { IsValid walk.old.script }
    requires begun { walk.old.counts ≡ begin (walk_plan (leg_of walk.old.script)) }
    ensures script { walk.new.script ≡ walk.old.script }
    ensures counts { walk.new.counts ≡ drain (bound (walk_plan (leg_of walk.old.script)))
        (walk_plan (leg_of walk.old.script)) walk.old.counts }
    ensures octets { result.octets
        ≡ octet_count (delivered_of (leg_of walk.old.script) walk.new.counts.rows) }
    ensures total { result.total
        ≡ octet_sum (delivered_of (leg_of walk.old.script) walk.new.counts.rows) }
{
    let mut sums = SumOut {
        octets: 0,
        total: 0,
    };
    walk.drain(&mut sums);
    sums
}

/// Makes the load of a number, of 1 to 64 lines and 1 to 1,000,000 ticks, runs it and writes three lines.
pub fn make<K: ByteSink>(
    alloc: Global,
    number: u64,
    lines: u8,
    ticks: u32,
    out: &mut K,
) -> Result<Ran<Option<Walk>>, Stop>
    requires lines { IsWithin 1 64 lines }
    requires ticks { IsWithin 1 most_drawn_ticks ticks }
    ensures { GivesAlone no_source
        (lent K.written K.faults out.old out.new)
        (makes (make_answer number lines ticks))
        (IsWalkOf (load number lines ticks)) result }
{
    let Ok(script) = text_scripts::make_load::make(alloc, number, lines, ticks) else {
        return Err(Stop::Memory);
    };
    let Ok(mut walk) = Walk::new(alloc, script) else {
        return Err(Stop::Memory);
    };
    let sums = drain_sums(&mut walk);
    let written = write_made(lines, ticks, &walk.totals(), &sums, out);
    Ok(Ran {
        made: Some(walk),
        written,
    })
}
