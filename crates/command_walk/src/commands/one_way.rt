//! `pair there` and `pair back`: the script of one way of a pair is written. Nothing is run.
ghost use Rattle.std.specs.Prelude.{◌≡◌, None};
ghost use Rattle.command_parts.specs.Task.{reads};
ghost use Rattle.command_parts.specs.Ends.{lent};
ghost use Rattle.command_parts.specs.Gives.{GivesAlone};
ghost use Rattle.command_walk.specs.commands.OneWay.{one_way_answer};

use command_parts::{Ran, Stop};
use law_model::FrameRoom;
use octet_io::{ByteSink, ByteSource};
use pair_engine::Way;
use pair_walk::way_script;
use std::alloc::{AllocError, Global};
use text_pairs::{read_pair, stop_of_pair};
use text_scripts::script_text::{is_too_long, write_script};
use walk_engine::walk_core::Walk;

/// Reads two scripts and writes that of one way of their pair, where it has at most 67,108,864 octets. All memory is
/// taken before the first octet is written.
pub fn one_way<S: ByteSource, K: ByteSink>(
    alloc: Global,
    way: Way,
    scripts: &mut S,
    out: &mut K,
) -> Result<Ran<Option<Walk>>, Stop>
    ensures { GivesAlone (lent S.left S.faults scripts.old scripts.new)
        (lent K.written K.faults out.old out.new)
        (reads (one_way_answer way)) (λ walk. walk ≡ None) result }
{
    let pair = match read_pair(alloc, scripts) {
        Ok(pair) => pair,
        Err(stop) => return Err(stop),
    };
    let script = match way_script(alloc, pair, way) {
        Ok(script) => script,
        Err(fault) => return Err(stop_of_pair(fault)),
    };
    if is_too_long(&script) {
        return Err(Stop::TooLong);
    }
    let mut room = match FrameRoom::new(alloc) {
        Ok(room) => room,
        Err(AllocError) => return Err(Stop::Memory),
    };
    let written = write_script(&script, &mut room, out);
    Ok(Ran {
        made: None,
        written,
    })
}
