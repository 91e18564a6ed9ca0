//! `capture`: a script's walk is made, and the frames that it delivers are written as a capture.
ghost use Rattle.std.specs.Prelude.{◌≡◌, ℕ, Ok, OnOk, OnErr, map, string_bytes};
ghost use Rattle.octet_io.specs.Transfer.{Appends, AppendsPart};
ghost use Rattle.law_model.specs.declared.script_types.Script.{Script};
ghost use Rattle.law_model.specs.session.Leg.{leg_of};
ghost use Rattle.law_model.specs.session.ValidScript.{IsValid};
ghost use Rattle.law_model.specs.session.Counts.{begin};
ghost use Rattle.law_walk.specs.Walk.{walk_plan};
ghost use Rattle.law_walk.specs.DeliveredFrames.{delivered_of};
ghost use Rattle.law_headline.specs.WalkTexts.{counts_in};
ghost use Rattle.text_captures.specs.capture_file.WrittenCapture.{RowFrame, due_frames};
ghost use Rattle.text_captures.specs.capture_file.Reading.{capture_said};
ghost use Rattle.command_parts.specs.Task.{reads};
ghost use Rattle.command_parts.specs.Ends.{lent};
ghost use Rattle.command_parts.specs.Gives.{GivesAlone};
ghost use Rattle.command_rooms.specs.commands.Capture.{taken_frames, capture_octets, capture_words};
ghost use Rattle.command_rooms.specs.commands.Capture.{capture_answer};
ghost use Rattle.command_rooms.specs.HandedWalk.{HandsScript};

use crate::turns::ready_walk::read_walk;
use crate::turns::watched_turns::{Turn, Watcher, drive, make_turn};
use crate::walk_command::WalkCommand;
use command_parts::{Ran, Stop};
use law_model::EventLine;
use octet_io::{ByteSink, ByteSource, Failed, take_back};
use std::alloc::Global;
use std::convert::Infallible;
use text_captures::capture_file::CaptureOut;
use walk_engine::walk_core::Walk;

/// The words `capture`.
pub fn words(words: &[String]) -> Option<WalkCommand>
    ensures { result ≡ capture_words (map string_bytes words.now) }
{
    match words {
        [word] if word.as_str() == "capture" => Some(WalkCommand::Capture),
        _ => None,
    }
}

impl<'a, K: ByteSink> Watcher for CaptureOut<'a, K> {
    type Fault = Infallible;

    ghost use Rattle.octet_io.specs.Start.{Start};
    ghost use Rattle.command_rooms.specs.commands.Capture.{HasTaken};

    ghost Before = { Start };

    ghost has_seen = { λ out start walk. HasTaken K.written K.faults out start walk };

    fn turn(&mut self, walk: &mut Walk, turn: Turn) -> Result<(), Infallible> {
        self.begin_row(walk.totals().taken);
        make_turn(walk, turn, self);
        Ok(())
    }
}

/// Makes a walk, and writes the capture of the frames that it delivers.
fn write_capture<K: ByteSink>(
    walk: &mut Walk,
    lines: &[EventLine],
    ticks: u32,
    out: &mut K,
) -> Result<(), Failed>
    requires valid { IsValid walk.old.script }
    requires events { lines.now ≡ walk.old.script.events }
    requires begun { walk.old.counts ≡ begin (walk_plan (leg_of walk.old.script)) }
    requires ticks { ticks ≡ walk.old.script.config.ticks }
    ensures script { walk.new.script ≡ walk.old.script }
    ensures counts { walk.new.counts ≡ counts_in walk.old.script }
    ensures ok { OnOk result
        (Appends K.written K.faults out.old out.new (capture_octets walk.old.script)) }
    ensures err { OnErr result
        (AppendsPart K.written K.faults out.old out.new (capture_octets walk.old.script)) }
{
    let mut capture = CaptureOut::new(out);
    let Ok(()) = drive(walk, lines, ticks, &mut capture);
    let (back, end) = capture.finish();
    take_back(back);
    end
}

/// Reads a script, makes its walk and writes a capture of the frames that it delivers.
pub fn capture<S: ByteSource, K: ByteSink>(
    alloc: Global,
    script: &mut S,
    out: &mut K,
) -> Result<Ran<Option<Walk>>, Stop>
    ensures { GivesAlone (lent S.left S.faults script.old script.new)
        (lent K.written K.faults out.old out.new)
        (reads capture_answer)
        (HandsScript (lent S.left S.faults script.old script.new)) result }
{
    let begun = match read_walk(alloc, script) {
        Ok(begun) => begun,
        Err(stop) => return Err(stop),
    };
    let mut walk = begun.walk;
    let written = write_capture(&mut walk, begun.lines.as_slice(), begun.size.ticks, out);
    Ok(Ran {
        made: Some(walk),
        written,
    })
}

/// The frames of a capture are exactly those that the rows deliver, in order and each once.
pub fn capture_law()
    ensures { (script : Script) (rows : ℕ) →
        map (λ (own : RowFrame). own.frame) (taken_frames script rows)
        ≡ delivered_of (leg_of script) rows }
{}

/// The capture of a valid script's walk is read as the frames in it, each due as many ticks after the first
/// one as the row that gave it comes after the row of that.
pub fn capture_read_law()
    ensures { (script : Script) → IsValid script → capture_said (capture_octets script)
        ≡ Ok (due_frames (taken_frames script (counts_in script).rows)) }
{}
