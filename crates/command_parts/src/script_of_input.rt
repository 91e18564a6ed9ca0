//! The script that an input says.
ghost use Rattle.std.specs.Prelude.{IfOk, IfErr};
ghost use Rattle.law_model.specs.Common.{IsValid};
ghost use Rattle.law_model.specs.declared.script_types.Script.{Script};
ghost use Rattle.command_parts.specs.Task.{Answer};
ghost use Rattle.command_parts.specs.Ends.{lent};
ghost use Rattle.command_parts.specs.Stops.{StopsReading};
ghost use Rattle.command_parts.specs.Scripts.{HasScript, script_answer};

use crate::input_by_lines::{PieceReader, read_pieces};
use crate::refusal_of_script::stop_of;
use crate::stop_and_status::Stop;
use law_model::Script;
use octet_io::ByteSource;
use std::alloc::Global;
use text_scripts::script_read::ScriptReader;

impl PieceReader for ScriptReader {
    ghost use Rattle.text_scripts.specs.script_read.Script.{script_of};
    ghost use Rattle.law_model.specs.Common.{IsValid};
    ghost use Rattle.command_parts.specs.Scripts.{told_of, ReadsScript};

    type Said = Script;

    ghost says = { λ text. told_of (script_of text) };

    ghost Fits = { IsValid };

    ghost Reads = { ReadsScript };

    fn at_start(alloc: Global) -> ScriptReader {
        ScriptReader::new(alloc)
    }

    fn read_lines(self, alloc: Global, rest: Vec<u8>) -> Result<(ScriptReader, Vec<u8>), Stop> {
        match self.read_on(alloc, rest) {
            Ok(read) => Ok(read),
            Err(fault) => Err(stop_of(fault)),
        }
    }

    fn read_end(self, alloc: Global, rest: &[u8]) -> Result<Script, Stop> {
        match self.finish(alloc, rest) {
            Ok(script) => Ok(script),
            Err(fault) => Err(stop_of(fault)),
        }
    }
}

/// Reads the script that an input says, each line once it is whole.
pub fn read_whole_script<S: ByteSource>(alloc: Global, source: &mut S) -> Result<Script, Stop>
    ensures script { IfOk result (HasScript (lent S.left S.faults source.old source.new)) }
    ensures valid { IfOk result IsValid }
    ensures stopped { (writes : Script → Answer) → IfErr result
        (StopsReading (lent S.left S.faults source.old source.new) (script_answer writes)) }
{
    read_pieces::<ScriptReader, S>(alloc, source)
}
