//! A live text of both ways is read, and answered as it comes.
ghost use Rattle.command_parts.specs.Ends.{lent};
ghost use Rattle.command_parts.specs.Gives.{GivesTalk};
ghost use Rattle.command_parts.specs.Dialogue.{talk_of};
ghost use Rattle.pair_live.specs.PairDialogue.{pair_dialogue};

use crate::answered_pair::AnsweredPair;
use command_parts::{Ran, Stop};
use octet_io::{ByteSink, ByteSource};
use std::alloc::Global;
use walk_live::{Asked, converse};

/// Answers a live text of both ways, with what is asked for of the decision steps and passes of each. A line is
/// answered once its LF has come, and what is answered to the lines that have come is put on `out` before more is
/// read: of both ways, so that whoever reads it sees which came first. Want of memory is told only before anything is
/// written.
pub fn live_pair<S: ByteSource, K: ByteSink>(
    alloc: Global,
    tells: Asked,
    source: &mut S,
    out: &mut K,
) -> Result<Ran<()>, Stop>
    ensures { GivesTalk (lent S.left S.faults source.old source.new)
        (lent K.written K.faults out.old out.new) (talk_of (pair_dialogue tells))
        (λ _. Unit {0}) result }
{
    converse::<AnsweredPair, S, K>(alloc, tells, source, out)
}
