//! The two scripts that an input says.
ghost use Rattle.std.specs.Prelude.{IfOk, IfErr};
ghost use Rattle.command_parts.specs.Common.{Answer, lent, StopsReading};
ghost use Rattle.law_pair.specs.Common.{IsPair};
ghost use Rattle.text_pairs.specs.declared.script_pair.ScriptPair.{ScriptPair};
ghost use Rattle.text_pairs.specs.Inputs.{HasPair, pair_answer};

use crate::pair_fault_note::stop_of_pair;
use crate::pair_reader::PairReader;
use crate::script_pair::ScriptPair;
use command_parts::{PieceReader, Stop, read_pieces};
use octet_io::ByteSource;
use std::alloc::Global;

impl PieceReader for PairReader {
    ghost use Rattle.law_pair.specs.Common.{IsPair};
    ghost use Rattle.text_pairs.specs.PairOfText.{pair_of};
    ghost use Rattle.text_pairs.specs.Inputs.{pair_told, ReadsPair};

    type Said = ScriptPair;

    ghost says = { λ text. pair_told (pair_of text) };

    ghost Fits = { λ pair. IsPair pair.there pair.back };

    ghost Reads = { ReadsPair };

    fn at_start(alloc: Global) -> PairReader {
        PairReader::new(alloc)
    }

    fn read_lines(self, alloc: Global, rest: Vec<u8>) -> Result<(PairReader, Vec<u8>), Stop> {
        match self.read_on(alloc, rest) {
            Ok(read) => Ok(read),
            Err(fault) => Err(stop_of_pair(fault)),
        }
    }

    fn read_end(self, alloc: Global, rest: &[u8]) -> Result<ScriptPair, Stop> {
        match self.finish(alloc, rest) {
            Ok(pair) => Ok(pair),
            Err(fault) => Err(stop_of_pair(fault)),
        }
    }
}

/// Reads the two scripts that an input of at most 67,108,864 octets says, each line once it is whole. What is wrong
/// with the input itself comes before its first fault. Want of memory may come in place of any answer.
pub fn read_pair<S: ByteSource>(alloc: Global, source: &mut S) -> Result<ScriptPair, Stop>
    ensures pair { IfOk result (HasPair (lent S.left S.faults source.old source.new)) }
    ensures fits { IfOk result (λ pair. IsPair pair.there pair.back) }
    ensures stopped { (writes : ScriptPair → Answer) → IfErr result
        (StopsReading (lent S.left S.faults source.old source.new) (pair_answer writes)) }
{
    read_pieces::<PairReader, S>(alloc, source)
}
