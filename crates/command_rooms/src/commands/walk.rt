//! `walk`: a script's walk is made, and what comes of it is written.
ghost use Rattle.std.specs.Prelude.{◌≡◌, OnOk, OnErr, map, string_bytes};
ghost use Rattle.law_model.specs.session.Leg.{leg_of};
ghost use Rattle.octet_io.specs.Transfer.{Appends, AppendsPart};
ghost use Rattle.law_model.specs.session.ValidScript.{IsValid};
ghost use Rattle.law_model.specs.session.Counts.{begin};
ghost use Rattle.law_walk.specs.Walk.{walk_plan};
ghost use Rattle.law_headline.specs.WalkTexts.{counts_in, walk_text};
ghost use Rattle.command_parts.specs.Task.{reads};
ghost use Rattle.command_parts.specs.Ends.{lent};
ghost use Rattle.command_parts.specs.Gives.{GivesAlone};
ghost use Rattle.command_rooms.specs.commands.Walk.{walk_words, walk_answer};
ghost use Rattle.command_rooms.specs.HandedWalk.{HandsScript};

use crate::turns::ready_walk::read_walk;
use crate::turns::trace_turns::write_rest;
use crate::turns::watched_turns::{Turn, Watcher, drive, make_turn};
use crate::walk_command::WalkCommand;
use command_parts::{Ran, Stop};
use law_model::EventLine;
use octet_io::{ByteSink, ByteSource, Failed, take_back};
use std::alloc::Global;
use std::convert::Infallible;
use text_got::GotLines;
use walk_engine::walk_core::Walk;

/// The words `walk`.
pub fn words(words: &[String]) -> Option<WalkCommand>
    ensures { result ≡ walk_words (map string_bytes words.now) }
{
    match words {
        [word] if word.as_str() == "walk" => Some(WalkCommand::Walk),
        _ => None,
    }
}

impl<'a, K: ByteSink> Watcher for GotLines<'a, K> {
    type Fault = Infallible;

    ghost use Rattle.octet_io.specs.Start.{Start};
    ghost use Rattle.command_rooms.specs.TracedWalk.{HasRows};

    ghost Before = { Start };

    ghost has_seen = { λ got start walk.
        HasRows K.written K.faults got start walk walk.counts.rows };

    fn turn(&mut self, walk: &mut Walk, turn: Turn) -> Result<(), Infallible> {
        make_turn(walk, turn, self);
        Ok(())
    }
}

/// Makes a walk, and writes what comes of it.
fn write_walk<K: ByteSink>(
    walk: &mut Walk,
    lines: &[EventLine],
    ticks: u32,
    out: &mut K,
) -> Result<(), Failed>
    requires valid { IsValid walk.old.script }
    requires events { lines.now ≡ walk.old.script.events }
    requires begun { walk.old.counts ≡ begin (walk_plan (leg_of walk.old.script)) }
    requires ticks { ticks ≡ walk.old.script.config.ticks }
    ensures script { walk.new.script ≡ walk.old.script }
    ensures counts { walk.new.counts ≡ counts_in walk.old.script }
    ensures ok { OnOk result
        (Appends K.written K.faults out.old out.new (walk_text walk.old.script)) }
    ensures err { OnErr result
        (AppendsPart K.written K.faults out.old out.new (walk_text walk.old.script)) }
{
    let mut got = GotLines::new(out);
    let Ok(()) = drive(walk, lines, ticks, &mut got);
    write_rest(walk, &mut got);
    let (back, end) = got.finish();
    take_back(back);
    end
}

/// Reads a script, makes its walk and writes what comes of it.
pub fn walk<S: ByteSource, K: ByteSink>(
    alloc: Global,
    script: &mut S,
    out: &mut K,
) -> Result<Ran<Option<Walk>>, Stop>
    ensures { GivesAlone (lent S.left S.faults script.old script.new)
        (lent K.written K.faults out.old out.new)
        (reads walk_answer)
        (HandsScript (lent S.left S.faults script.old script.new)) result }
{
    let begun = match read_walk(alloc, script) {
        Ok(begun) => begun,
        Err(stop) => return Err(stop),
    };
    let mut walk = begun.walk;
    let written = write_walk(&mut walk, begun.lines.as_slice(), begun.size.ticks, out);
    Ok(Ran {
        made: Some(walk),
        written,
    })
}
