//! `pair`: the sessions of two scripts are made, which carry each other's return packets, and the report of each is
//! written: that of the way there, and on `notes` that of the way back.
ghost use Rattle.std.specs.Prelude.{◌≡◌, None};
ghost use Rattle.command_parts.specs.Task.{reads};
ghost use Rattle.command_parts.specs.Ends.{lent};
ghost use Rattle.command_parts.specs.Gives.{Gives};
ghost use Rattle.text_pairs.specs.ReportsOfWays.{pair_reply};

use command_parts::{Ran, Stop};
use octet_io::{ByteSink, ByteSource};
use pair_engine::Pair;
use pair_walk::write_pair;
use std::alloc::{AllocError, Global};
use text_pairs::{ScriptPair, read_pair};
use walk_engine::walk_core::Walk;

/// Reads two scripts, makes their pair and writes the report of each way. All memory is taken before the first octet is
/// written. A write that fails, on `out` or on `notes`, is the last one but for the note on it.
pub fn pair<S: ByteSource, K: ByteSink, E: ByteSink>(
    alloc: Global,
    script: &mut S,
    out: &mut K,
    notes: &mut E,
) -> Result<Ran<Option<Walk>>, Stop>
    ensures { Gives (lent S.left S.faults script.old script.new)
        (lent K.written K.faults out.old out.new) (lent E.written E.faults notes.old notes.new)
        (reads pair_reply) (λ walk. walk ≡ None) result }
{
    let ScriptPair { there, back } = match read_pair(alloc, script) {
        Ok(scripts) => scripts,
        Err(stop) => return Err(stop),
    };
    let mut pair = match Pair::new(alloc, there, back) {
        Ok(pair) => pair,
        Err(AllocError) => return Err(Stop::Memory),
    };
    let written = write_pair(&mut pair, out, notes);
    Ok(Ran {
        made: None,
        written,
    })
}
