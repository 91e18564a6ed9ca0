//! An input that is read line by line, as it comes.
ghost use Rattle.std.specs.Prelude.{◌≡◌, ℕ, List, ◌++◌, IfOk, IfErr, Ok};
ghost use Rattle.command_parts.specs.Task.{Answer};
ghost use Rattle.command_parts.specs.Ends.{lent, HasRead};
ghost use Rattle.command_parts.specs.Stops.{StopsReading, StopsFor};
ghost use Rattle.command_parts.specs.Scripts.{IsTaken};
ghost use Rattle.command_parts.specs.TextInPieces.{answer_told, StopsAt, Follows, HasNumbersLeft};

use crate::stop_and_status::Stop;
use crate::whole_input::{MOST, skip_rest, take_some};
use memchr::memchr;
use octet_io::ByteSource;
use std::alloc::Global;

/// The octets of an input that are asked for at once.
const PIECE: usize = 65_536;

/// Reads a text that comes in pieces, each line once it is whole.
pub trait PieceReader: Drop {
    /// What a text says.
    type Said;

    ghost use Rattle.std.specs.Prelude.{◌≡◌, ⊤, ℕ, List, [], ◌++◌, Result, Ok, IfOk, IfErr};
    ghost use Rattle.command_parts.specs.declared.stop_and_status.Refusal.{Refusal};
    ghost use Rattle.command_parts.specs.TextInPieces.{StopsAt, Follows, HasNumbersLeft};

    /// What a text says, or why it isn't what a command takes, and the note on that.
    ghost says: { List ℕ → Result Self.Said (Refusal × List ℕ) };

    /// What holds of all that a text says.
    ghost Fits: { Self.Said → Type 0 } = { λ _. ⊤ };

    /// It was made by its calls, and has read this text, which ends where a line does.
    ghost Reads: { Self → List ℕ → Type 0 };

    /// A reader that has read nothing.
    fn at_start(alloc: Global) -> Self
        ensures { Reads result [] };

    /// Reads the whole lines at the front of the rest of a text, and gives what is left then.
    fn read_lines(self, alloc: Global, rest: Vec<u8>) -> Result<(Self, Vec<u8>), Stop>
        requires { HasNumbersLeft Reads self rest.items }
        ensures follows { (all : List ℕ) → Follows Reads self rest.items all →
            IfOk result (λ read. Follows Reads read.0 read.1.items all) }
        ensures stopped { (all : List ℕ) → Follows Reads self rest.items all →
            IfErr result (λ stop. (more : List ℕ) → StopsAt (says (all ++ more)) stop) };

    /// What the text says whose last octets these are.
    fn read_end(self, alloc: Global, rest: &[u8]) -> Result<Self::Said, Stop>
        requires { HasNumbersLeft Reads self rest.now }
        ensures said { (all : List ℕ) → Follows Reads self rest.now all →
            IfOk result (λ said. says all ≡ Ok said) }
        ensures fits { IfOk result Fits }
        ensures stopped { (all : List ℕ) → Follows Reads self rest.now all →
            IfErr result (StopsAt (says all)) };
}

/// Reads on once the end of a line has come.
fn read_more<R: PieceReader>(
    reader: R,
    alloc: Global,
    rest: Vec<u8>,
    piece: &[u8],
) -> Result<(R, Vec<u8>), Stop>
    requires { HasNumbersLeft R.Reads reader rest.items }
    ensures follows { (all : List ℕ) → Follows R.Reads reader rest.items all →
        IfOk result (λ read. Follows R.Reads read.0 read.1.items all) }
    ensures stopped { (all : List ℕ) → Follows R.Reads reader rest.items all →
        IfErr result (λ stop. (more : List ℕ) → StopsAt (R.says (all ++ more)) stop) }
{
    match memchr(b'\n', piece) {
        Some(_) => reader.read_lines(alloc, rest),
        None => Ok((reader, rest)),
    }
}

/// Reads the rest of an input whose lines so far stopped its reader, since what is wrong with the input comes first.
fn stop_after<S: ByteSource>(alloc: Global, source: &mut S, room: usize, own: Stop) -> Stop
    ensures { (start : S) (before : List ℕ) (answer : List ℕ → Answer) →
        IsTaken S.left S.faults start source.old before room →
        ((more : List ℕ) → StopsFor (answer (before ++ more)) own) →
        StopsReading (lent S.left S.faults start source.new) answer result }
{
    match skip_rest(alloc, source, room) {
        Ok(()) => own,
        Err(stop) => stop,
    }
}

/// Reads what an input says, each line once it is whole. What is wrong with the input itself comes before what is wrong
/// with its lines. Want of memory may come in place of any answer.
pub fn read_pieces<R: PieceReader, S: ByteSource>(
    alloc: Global,
    source: &mut S,
) -> Result<R::Said, Stop>
    ensures said { IfOk result (λ said. (text : List ℕ)
        × HasRead (lent S.left S.faults source.old source.new) text × (R.says text ≡ Ok said)) }
    ensures fits { IfOk result R.Fits }
    ensures stopped { (writes : R.Said → Answer) →
        IfErr result (StopsReading (lent S.left S.faults source.old source.new)
        (λ text. answer_told writes (R.says text))) }
{
    let mut reader = R::at_start(alloc);
    let mut rest = Vec::new(alloc);
    let mut room = MOST;
    let mut buf = [0u8; PIECE];
    loop {
        let n = match take_some(source, &mut buf, &mut rest, room) {
            Ok(n) => n,
            Err(stop) => return Err(stop),
        };
        if n == 0 {
            return reader.read_end(alloc, rest.as_slice());
        }
        room -= n;
        match read_more(reader, alloc, rest, &buf[..n]) {
            Ok((next, left)) => {
                reader = next;
                rest = left;
            }
            Err(stop) => return Err(stop_after(alloc, source, room, stop)),
        }
    }
}
