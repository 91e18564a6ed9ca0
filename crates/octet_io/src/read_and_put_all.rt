//! The loops over a source and a sink: read all of it, put all of it.
ghost use Rattle.std.specs.Prelude.{◌≡◌, ◌<◌, ◌≤◌, length, vec_len, IsErrOf, IfOk, IfSome, OnOk, OnErr};
ghost use Rattle.octet_io.specs.FaultCounts.{one_more};
ghost use Rattle.octet_io.specs.Transfer.{GivesAll, Appends, AppendsPart};

use crate::source_and_sink::{ByteSink, ByteSource, Failed};
use std::alloc::Global;

/// Why the octets of a source can't be had as a whole.
#[derive(Clone, Copy, Debug, PartialEq, Eq)]
pub enum ReadEnd {
    /// Memory is short.
    Memory,
    /// A call of the source failed.
    Failed,
    /// The source gave more octets than the limit.
    TooLong,
}

/// The octets that are asked of a source at once.
const CHUNK: usize = 65536;

/// Puts the whole piece, in as many calls as the sink needs. The first call that fails is the last one that is made.
pub fn put_all<K: ByteSink>(sink: &mut K, piece: &[u8]) -> Result<(), Failed>
    ensures ok { OnOk result (Appends K.written K.faults sink.old sink.new piece.now) }
    ensures err { OnErr result (AppendsPart K.written K.faults sink.old sink.new piece.now) }
{
    let mut at = 0;
    while at < piece.len() {
        match sink.put(&piece[at..]) {
            Ok(n) => at += n,
            Err(Failed) => return Err(Failed),
        }
    }
    Ok(())
}

/// Reads a source to its end, as long as it gives at most `limit` octets. It is `TooLong` as soon as more have come.
/// The first call that fails is the last one that is made. After an error the octets that came are lost, and no clause
/// says how many came.
pub fn read_all<S: ByteSource>(
    alloc: Global,
    source: &mut S,
    limit: usize,
) -> Result<Vec<u8>, ReadEnd>
    ensures whole { IfOk result (λ text. GivesAll S.left source.old source.new text.items) }
    ensures fits { IfOk result (λ text. vec_len text ≤ limit) }
    ensures long { IsErrOf result ReadEnd.TooLong →
        IfSome (S.left source.old) (λ text. limit < length text) }
    ensures failed { IsErrOf result ReadEnd.Failed →
        S.faults source.new ≡ one_more (S.faults source.old) }
    ensures quiet { ¬ IsErrOf result ReadEnd.Failed → S.faults source.new ≡ S.faults source.old }
{
    let mut text = Vec::new(alloc);
    let mut buf = [0u8; CHUNK];
    loop {
        match source.take(&mut buf) {
            Ok(0) => return Ok(text),
            Ok(n) if n > limit - text.len() => return Err(ReadEnd::TooLong),
            Ok(n) => {
                if text.extend_from_slice(&buf[..n]).is_err() {
                    return Err(ReadEnd::Memory);
                }
            }
            Err(Failed) => return Err(ReadEnd::Failed),
        }
    }
}

/// Ends a loan: what was lent is then what the reference says.
pub fn take_back<K>(out: &mut K)
    ensures { out.new ≡ out.old }
{
    let _ = out;
}
