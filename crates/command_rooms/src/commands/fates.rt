//! `fates`: a script's walk is made, and what became of each of its frames is written, with the rows that
//! were spoiled and what was confirmed after each break.
ghost use Rattle.std.specs.Prelude.{◌≡◌, ◌≤◌, ℕ, List, [], length, Ok, map, string_bytes};
ghost use Rattle.law_model.specs.Common.{leg_of};
ghost use Rattle.law_model.specs.declared.script_types.Script.{Script};
ghost use Rattle.law_walk.specs.Common.{final_report};
ghost use Rattle.text_scripts.specs.script_read.Script.{script_of};
ghost use Rattle.law_headline.specs.Headline.{IsRunReport};
ghost use Rattle.law_model.specs.Limits.{longest_input};
ghost use Rattle.command_parts.specs.Task.{reads, writes};
ghost use Rattle.command_parts.specs.Ends.{lent};
ghost use Rattle.command_parts.specs.Gives.{GivesAlone};
ghost use Rattle.command_rooms.specs.commands.Fates.{fates_words, fates_answer, EndsTrue, WalksTrue};
ghost use Rattle.command_rooms.specs.HandedWalk.{HandsScript};

use crate::turns::fate_turns::see_script;
use crate::walk_command::WalkCommand;
use command_parts::{Ran, Stop};
use fate_walks::walk_fates::write_fates;
use octet_io::{ByteSink, ByteSource};
use std::alloc::Global;
use walk_engine::walk_core::Walk;

/// The words `fates`.
pub fn words(words: &[String]) -> Option<WalkCommand>
    ensures { result ≡ fates_words (map string_bytes words.now) }
{
    match words {
        [word] if word.as_str() == "fates" => Some(WalkCommand::Fates),
        _ => None,
    }
}

/// Reads a script, makes its walk and writes what became of each frame. All memory is taken before the first
/// octet is written.
pub fn fates<S: ByteSource, K: ByteSink>(
    alloc: Global,
    script: &mut S,
    out: &mut K,
) -> Result<Ran<Option<Walk>>, Stop>
    // That the text says `starts true` exactly where what is confirmed first after each break is the place of
    // a piece, and that then the frames with the fate `got` are the delivered ones, in order and each once,
    // is `fate_law` of `fate_engine`; what `walk` then writes is `starts_law`.
    ensures { GivesAlone (lent S.left S.faults script.old script.new)
        (lent K.written K.faults out.old out.new)
        (reads fates_answer)
        (HandsScript (lent S.left S.faults script.old script.new)) result }
{
    let watched = match see_script(alloc, script) {
        Ok(watched) => watched,
        Err(stop) => return Err(stop),
    };
    let written = write_fates(&watched.walk, &watched.seen, out);
    Ok(Ran {
        made: Some(watched.walk),
        written,
    })
}

/// Of each text of at most 67,108,864 octets: if what `fates` writes of it ends in `starts true`, what `walk`
/// writes of it is its headline with nothing presumed; and what `run` writes too, if it has no event lines.
pub fn starts_law()
    ensures walk { (text fates : List ℕ) → length text ≤ longest_input →
        fates_answer text ≡ writes fates → EndsTrue fates → WalksTrue text }
    ensures run { (text fates : List ℕ) (script : Script) → length text ≤ longest_input →
        script_of text ≡ Ok script → script.events ≡ [] → fates_answer text ≡ writes fates →
        EndsTrue fates → IsRunReport text (final_report (leg_of script)) }
{}
