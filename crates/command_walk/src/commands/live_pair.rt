//! `live pair`: a live text of both ways is answered line by line as it comes, by a pair of walks that are told what
//! its lines say.
ghost use Rattle.std.specs.Prelude.{◌≡◌, None};
ghost use Rattle.command_parts.specs.Dialogue.{talk_of};
ghost use Rattle.command_parts.specs.Ends.{lent};
ghost use Rattle.command_parts.specs.Gives.{GivesTalk};
ghost use Rattle.pair_live.specs.PairDialogue.{pair_dialogue};

use command_parts::{Ran, Stop};
use octet_io::{ByteSink, ByteSource};
use std::alloc::Global;
use walk_engine::walk_core::Walk;
use walk_live::Asked;

/// Answers a live text of both ways, with what is asked for of their decision steps and passes. What is answered to
/// the lines that have come is put on `out` before more is read, of both ways in one order. No walk is handed back.
pub fn live_pair<S: ByteSource, K: ByteSink>(
    alloc: Global,
    tells: Asked,
    scripts: &mut S,
    out: &mut K,
) -> Result<Ran<Option<Walk>>, Stop>
    ensures { GivesTalk (lent S.left S.faults scripts.old scripts.new)
        (lent K.written K.faults out.old out.new) (talk_of (pair_dialogue tells))
        (λ walk. walk ≡ None) result }
{
    match pair_live::live_pair(alloc, tells, scripts, out) {
        Ok(ran) => Ok(Ran {
            made: None,
            written: ran.written,
        }),
        Err(stop) => Err(stop),
    }
}
