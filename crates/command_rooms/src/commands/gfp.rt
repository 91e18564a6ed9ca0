//! `gfp`: a script's walk is made, and the GFP frames of its client that the taken rows carry are written as a capture,
//! as they are before scrambling.
ghost use Rattle.std.specs.Prelude.{◌≡◌, map, string_bytes};
ghost use Rattle.command_parts.specs.Task.{reads};
ghost use Rattle.command_parts.specs.Ends.{lent};
ghost use Rattle.command_parts.specs.Gives.{GivesAlone};
ghost use Rattle.command_rooms.specs.commands.Gfp.{gfp_words, gfp_answer};
ghost use Rattle.command_rooms.specs.HandedWalk.{HandsScript};

use crate::turns::fate_turns::see_script;
use crate::walk_command::WalkCommand;
use command_parts::{Ran, Stop};
use fate_walks::walk_gfp::write_gfp;
use law_model::FrameRoom;
use octet_io::{ByteSink, ByteSource};
use std::alloc::{AllocError, Global};
use walk_engine::walk_core::Walk;

/// The words `gfp`.
pub fn words(words: &[String]) -> Option<WalkCommand>
    ensures { result ≡ gfp_words (map string_bytes words.now) }
{
    match words {
        [word] if word.as_str() == "gfp" => Some(WalkCommand::Gfp),
        _ => None,
    }
}

/// Reads a script, makes its walk and writes a capture of the GFP frames that the taken rows carry. All
/// memory is taken before the first octet is written.
pub fn gfp<S: ByteSource, K: ByteSink>(
    alloc: Global,
    script: &mut S,
    out: &mut K,
) -> Result<Ran<Option<Walk>>, Stop>
    // That these frames are those whose pieces end by the place at which the rows end, in order and each
    // once, is `carried_law` of `walk_gfp`; that each is what the source sent is `gfp_law` of `capture_file`
    // and that law.
    ensures { GivesAlone (lent S.left S.faults script.old script.new)
        (lent K.written K.faults out.old out.new)
        (reads gfp_answer)
        (HandsScript (lent S.left S.faults script.old script.new)) result }
{
    let watched = match see_script(alloc, script) {
        Ok(watched) => watched,
        Err(stop) => return Err(stop),
    };
    let mut room = match FrameRoom::new(alloc) {
        Ok(room) => room,
        Err(AllocError) => return Err(Stop::Memory),
    };
    let written = write_gfp(&watched.walk, &watched.seen, &mut room, out);
    Ok(Ran {
        made: Some(watched.walk),
        written,
    })
}
