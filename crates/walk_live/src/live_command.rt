//! A live text is read, and answered as it comes.
ghost use Rattle.command_parts.specs.Ends.{lent};
ghost use Rattle.command_parts.specs.Gives.{GivesTalk};
ghost use Rattle.command_parts.specs.Dialogue.{talk_of};
ghost use Rattle.walk_live.specs.LiveReplies.{live_dialogue};

use crate::answered_walk::AnsweredWalk;
use crate::asked::Asked;
use crate::live_talker::converse;
use command_parts::{Ran, Stop};
use octet_io::{ByteSink, ByteSource};
use std::alloc::Global;

/// Answers a live text, with what is asked for of its decision steps and passes. A line is answered once its LF has
/// come, and what is answered to the lines that have come is put on `out` before more is read. Want of memory is
/// told only before anything is written.
pub fn live<S: ByteSource, K: ByteSink>(
    alloc: Global,
    tells: Asked,
    source: &mut S,
    out: &mut K,
) -> Result<Ran<()>, Stop>
    ensures { GivesTalk (lent S.left S.faults source.old source.new)
        (lent K.written K.faults out.old out.new) (talk_of (live_dialogue tells))
        (λ _. Unit {0}) result }
{
    converse::<AnsweredWalk, S, K>(alloc, tells, source, out)
}
