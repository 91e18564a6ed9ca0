//! A script as a command reads it, and its walk before any event.
ghost use Rattle.std.specs.Prelude.{IfOk, IfErr};
ghost use Rattle.law_model.specs.Common.{IsValid};
ghost use Rattle.law_model.specs.declared.script_types.Script.{Script};
ghost use Rattle.command_parts.specs.Common.{Answer, lent, HasScript, script_answer, StopsReading};
ghost use Rattle.command_rooms.specs.ReadyWalk.{IsBegun};

use command_parts::{Stop, read_whole_script};
use law_model::{EventLine, Script};
use octet_io::ByteSource;
use std::alloc::{AllocError, Global};
use walk_engine::walk_core::Walk;

/// The lines and the ticks of a script.
#[derive(Clone, Copy)]
pub struct LinesAndTicks {
    /// The lines of the group, 1 to 128.
    pub lines: u8,
    /// The ticks of the session, each a frame of 125 microseconds.
    pub ticks: u32,
}

/// A walk before any event, the event lines of its script, and the script's size.
#[derive(Drop)]
pub struct ReadyWalk {
    /// The event lines of its script, in order.
    pub lines: Vec<EventLine>,
    /// How many lines and ticks the script has.
    pub size: LinesAndTicks,
    /// The walk, of which no event was made.
    pub walk: Walk,
}

/// Takes the memory for a walk of a script.
fn begin_script(alloc: Global, script: Script) -> Result<ReadyWalk, AllocError>
    requires { IsValid script }
    ensures { IfOk result (λ begun. IsBegun script begun) }
{
    let lines = Vec::from_slice(alloc, script.events.0.as_slice())?;
    let size = LinesAndTicks {
        lines: script.config.lines,
        ticks: script.config.ticks,
    };
    let walk = Walk::new(alloc, script)?;
    Ok(ReadyWalk { lines, size, walk })
}

/// Reads a script, and takes the memory for its walk.
pub(crate) fn read_walk<S: ByteSource>(alloc: Global, source: &mut S) -> Result<ReadyWalk, Stop>
    ensures script { IfOk result (λ begun.
        HasScript (lent S.left S.faults source.old source.new) begun.walk.script) }
    ensures begun { IfOk result (λ begun. IsBegun begun.walk.script begun) }
    ensures stopped { (writes : Script → Answer) → IfErr result
        (StopsReading (lent S.left S.faults source.old source.new) (script_answer writes)) }
{
    match read_whole_script(alloc, source) {
        Ok(script) => match begin_script(alloc, script) {
            Ok(begun) => Ok(begun),
            Err(AllocError) => Err(Stop::Memory),
        },
        Err(stop) => Err(stop),
    }
}
