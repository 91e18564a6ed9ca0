//! `trace`: a script's walk is made, and what comes of it is written, with a line for each decision step on `notes`.
ghost use Rattle.std.specs.Prelude.{◌≡◌, map, string_bytes};
ghost use Rattle.command_parts.specs.Task.{reads};
ghost use Rattle.command_parts.specs.Ends.{lent};
ghost use Rattle.command_parts.specs.Gives.{Gives};
ghost use Rattle.command_rooms.specs.commands.Trace.{trace_words, trace_answer};
ghost use Rattle.command_rooms.specs.HandedWalk.{HandsScript};

use crate::turns::ready_walk::read_walk;
use crate::turns::trace_turns::write_trace;
use crate::walk_command::WalkCommand;
use command_parts::{Ran, Stop};
use octet_io::{ByteSink, ByteSource};
use std::alloc::Global;
use walk_engine::walk_core::Walk;

/// The words `trace`.
pub fn words(words: &[String]) -> Option<WalkCommand>
    ensures { result ≡ trace_words (map string_bytes words.now) }
{
    match words {
        [word] if word.as_str() == "trace" => Some(WalkCommand::Trace),
        _ => None,
    }
}

/// Reads a script, makes its walk and writes what comes of it and its trace. A write that fails, on `out` or
/// on `notes`, is the last one but for the note on it; the walk goes on to its end.
pub fn trace<S: ByteSource, K: ByteSink, E: ByteSink>(
    alloc: Global,
    script: &mut S,
    out: &mut K,
    notes: &mut E,
) -> Result<Ran<Option<Walk>>, Stop>
    ensures { Gives (lent S.left S.faults script.old script.new)
        (lent K.written K.faults out.old out.new) (lent E.written E.faults notes.old notes.new)
        (reads trace_answer)
        (HandsScript (lent S.left S.faults script.old script.new)) result }
{
    let begun = match read_walk(alloc, script) {
        Ok(begun) => begun,
        Err(stop) => return Err(stop),
    };
    let mut walk = begun.walk;
    let written = write_trace(&mut walk, begun.lines.as_slice(), begun.size, out, notes);
    Ok(Ran {
        made: Some(walk),
        written,
    })
}
