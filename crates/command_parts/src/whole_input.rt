//! Inputs are read whole before anything is written.
ghost use Rattle.std.specs.Prelude.{◌≡◌, ◌<◌, ◌≤◌, ℕ, List, ◌++◌, length, vec_len, IfOk, IfErr};
ghost use Rattle.std.specs.Io.KnownBytes.{prepend_known, IsAtEnd};
ghost use Rattle.law_model.specs.Common.{GivesAll, longest_input};
ghost use Rattle.command_parts.specs.Task.{Answer};
ghost use Rattle.command_parts.specs.Ends.{lent, HasRead};
ghost use Rattle.command_parts.specs.Stops.{StopsReading, StopsTaking};

use crate::stop_and_status::Stop;
use octet_io::{ByteSource, Failed, ReadEnd, read_all};
use std::alloc::Global;

/// The most octets that an input may have.
pub const MOST: usize = 67_108_864;

/// Reads the whole input of a command.
pub fn read_input<S: ByteSource>(alloc: Global, source: &mut S) -> Result<Vec<u8>, Stop>
    ensures read { IfOk result (λ text.
        HasRead (lent S.left S.faults source.old source.new) text.items) }
    ensures fits { IfOk result (λ text. vec_len text ≤ longest_input) }
    ensures stopped { (answer : List ℕ → Answer) → IfErr result
        (StopsReading (lent S.left S.faults source.old source.new) answer) }
{
    match read_all(alloc, source, MOST) {
        Ok(text) => Ok(text),
        Err(ReadEnd::Memory) => Err(Stop::Memory),
        Err(ReadEnd::Failed) => Err(Stop::Read),
        Err(ReadEnd::TooLong) => Err(Stop::TooLong),
    }
}

/// Takes some octets of an input, at most so many, and appends them to a rest; none where the input has come to its
/// end.
pub fn take_some<S: ByteSource>(
    source: &mut S,
    buf: &mut [u8],
    rest: &mut Vec<u8>,
    room: usize,
) -> Result<usize, Stop>
    requires { 0 < length buf.old }
    ensures within { IfOk result (λ n. n ≤ room) }
    ensures bound { IfOk result (λ n. n ≤ length buf.new) }
    ensures took { IfOk result (λ n. (piece : List ℕ) × (length piece ≡ n)
        × (S.left source.old ≡ prepend_known piece (S.left source.new))
        × (rest.new.items ≡ rest.old.items ++ piece)) }
    ensures end { IfOk result (λ n. n ≡ 0 → IsAtEnd (S.left source.new)) }
    ensures quiet { IfOk result (λ n. S.faults source.new ≡ S.faults source.old) }
    ensures stopped { IfErr result
        (StopsTaking (lent S.left S.faults source.old source.new) room) }
{
    match source.take(buf) {
        Ok(n) if n > room => Err(Stop::TooLong),
        Ok(n) => match rest.extend_from_slice(&buf[..n]) {
            Ok(()) => Ok(n),
            Err(_) => Err(Stop::Memory),
        },
        Err(Failed) => Err(Stop::Read),
    }
}

/// Reads an input to its end, at most so many octets. It keeps them until it has all, and hands back none.
pub(crate) fn skip_rest<S: ByteSource>(
    alloc: Global,
    source: &mut S,
    room: usize,
) -> Result<(), Stop>
    ensures read { IfOk result (λ _. (text : List ℕ) × (length text ≤ room)
        × GivesAll S.left source.old source.new text
        × (S.faults source.new ≡ S.faults source.old)) }
    ensures stopped { IfErr result
        (StopsTaking (lent S.left S.faults source.old source.new) room) }
{
    match read_all(alloc, source, room) {
        Ok(_) => Ok(()),
        Err(ReadEnd::Memory) => Err(Stop::Memory),
        Err(ReadEnd::Failed) => Err(Stop::Read),
        Err(ReadEnd::TooLong) => Err(Stop::TooLong),
    }
}
