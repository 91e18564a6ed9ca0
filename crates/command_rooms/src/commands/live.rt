//! `live`: a live text is answered line by line as it comes, by a walk that is told what its lines say.
ghost use Rattle.std.specs.Prelude.{◌≡◌, None, map, string_bytes};
ghost use Rattle.command_parts.specs.Dialogue.{talk_of};
ghost use Rattle.command_parts.specs.Ends.{lent};
ghost use Rattle.command_parts.specs.Gives.{GivesTalk};
ghost use Rattle.walk_live.specs.LiveReplies.{live_dialogue};
ghost use Rattle.command_rooms.specs.commands.Live.{live_words};

use crate::walk_command::WalkCommand;
use command_parts::{Ran, Stop};
use octet_io::{ByteSink, ByteSource};
use std::alloc::Global;
use walk_engine::walk_core::Walk;
use walk_live::Asked;

/// The words `live`, or `live` and `trace` or `told`.
pub fn words(words: &[String]) -> Option<WalkCommand>
    ensures { result ≡ live_words (map string_bytes words.now) }
{
    match words {
        [word] if word.as_str() == "live" => Some(WalkCommand::Live {
            tells: Asked::Nothing,
        }),
        [word, what] if word.as_str() == "live" && what.as_str() == "trace" => {
            Some(WalkCommand::Live {
                tells: Asked::Steps,
            })
        }
        [word, what] if word.as_str() == "live" && what.as_str() == "told" => {
            Some(WalkCommand::Live {
                tells: Asked::Members,
            })
        }
        _ => None,
    }
}

/// Answers a live text, with what is asked for of its decision steps. What is answered to the lines that
/// have come is put on `out` before more is read. The walk isn't handed back.
pub fn live<S: ByteSource, K: ByteSink>(
    alloc: Global,
    tells: Asked,
    script: &mut S,
    out: &mut K,
) -> Result<Ran<Option<Walk>>, Stop>
    ensures { GivesTalk (lent S.left S.faults script.old script.new)
        (lent K.written K.faults out.old out.new) (talk_of (live_dialogue tells))
        (λ walk. walk ≡ None) result }
{
    match walk_live::live(alloc, tells, script, out) {
        Ok(ran) => Ok(Ran {
            made: None,
            written: ran.written,
        }),
        Err(stop) => Err(stop),
    }
}
