//! `check`: a script's walk is made, and what in the script is unused, idle, early or refused is written.
ghost use Rattle.std.specs.Prelude.{◌≡◌, map, string_bytes};
ghost use Rattle.command_parts.specs.Task.{reads};
ghost use Rattle.command_parts.specs.Ends.{lent};
ghost use Rattle.command_parts.specs.Gives.{GivesAlone};
ghost use Rattle.command_rooms.specs.commands.Check.{check_words, check_answer};
ghost use Rattle.command_rooms.specs.HandedWalk.{HandsScript};

use crate::turns::fate_turns::see_script;
use crate::walk_command::WalkCommand;
use command_parts::{Ran, Stop};
use fate_check::write_check;
use octet_io::{ByteSink, ByteSource};
use std::alloc::Global;
use walk_engine::walk_core::Walk;

/// The words `check`.
pub fn words(words: &[String]) -> Option<WalkCommand>
    ensures { result ≡ check_words (map string_bytes words.now) }
{
    match words {
        [word] if word.as_str() == "check" => Some(WalkCommand::Check),
        _ => None,
    }
}

/// Reads a script, makes its walk and writes what in the script is unused, idle, early or refused. All memory is
/// taken before the first octet is written.
pub fn check<S: ByteSource, K: ByteSink>(
    alloc: Global,
    script: &mut S,
    out: &mut K,
) -> Result<Ran<Option<Walk>>, Stop>
    // That a failure which is told idle changes no row is `idle_law` of `fate_check`.
    ensures { GivesAlone (lent S.left S.faults script.old script.new)
        (lent K.written K.faults out.old out.new)
        (reads check_answer)
        (HandsScript (lent S.left S.faults script.old script.new)) result }
{
    let watched = match see_script(alloc, script) {
        Ok(watched) => watched,
        Err(stop) => return Err(stop),
    };
    let written = write_check(&watched.walk, &watched.seen, out);
    Ok(Ran {
        made: Some(watched.walk),
        written,
    })
}
