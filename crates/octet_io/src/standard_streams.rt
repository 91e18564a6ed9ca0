//! A source over a reader and a sink over a writer of the standard library, which count faults and tell no content.
ghost use Rattle.std.specs.Prelude.{◌≡◌, ◌⊎◌, ◌<◌, ◌≤◌, ◌↔◌, length, IsTrue, IfOk, OnOk, OnErr};
ghost use Rattle.octet_io.specs.FaultCounts.{one_more};

use crate::source_and_sink::{ByteSink, ByteSource, Failed};
use std::io::{Read, Write};
use std::marker::Model;

/// A source over a reader of the standard library. It counts the faults of its reads, and tells no content.
#[derive(Drop)]
pub struct StdSource<R> {
    inner: R,
    faults: u64,
}

impl<R> Model for StdSource<R> {
    ghost use Rattle.std.specs.Prelude.{ℕ};

    ghost Value = { ℕ };

    ghost view = { λ source. source.faults };
}

impl<R> StdSource<R> {
    /// A source that counted no fault yet.
    pub fn new(inner: R) -> StdSource<R>
        ensures { result ≡ 0 }
    {
        StdSource { inner, faults: 0 }
    }
}

impl<R: Read> ByteSource for StdSource<R> {
    ghost faults = { λ faults. faults };

    fn take(&mut self, buf: &mut [u8]) -> Result<usize, Failed>
        ensures bound { IfOk result (λ n. n ≤ length buf.new) }
        ensures quiet { OnOk result (self.new ≡ self.old) }
        ensures counted { OnErr result (self.new ≡ one_more self.old) }
        ensures never_falls { self.old ≤ self.new }
    {
        match self.inner.read(buf) {
            Ok(n) => Ok(n),
            Err(_) => {
                self.faults = self.faults.saturating_add(1);
                Err(Failed)
            }
        }
    }
}

/// A sink over a writer of the standard library, which should keep no buffer, since nothing is flushed. It counts
/// the faults of its writes, also a write that takes nothing of a piece, and tells no content.
#[derive(Drop)]
pub struct StdSink<W> {
    inner: W,
    faults: u64,
}

impl<W> Model for StdSink<W> {
    ghost use Rattle.std.specs.Prelude.{ℕ};

    ghost Value = { ℕ };

    ghost view = { λ sink. sink.faults };
}

impl<W> StdSink<W> {
    /// A sink that counted no fault yet.
    pub fn new(inner: W) -> StdSink<W>
        ensures { result ≡ 0 }
    {
        StdSink { inner, faults: 0 }
    }
}

impl<W: Write> ByteSink for StdSink<W> {
    ghost faults = { λ faults. faults };

    fn put(&mut self, piece: &[u8]) -> Result<usize, Failed>
        ensures bound { IfOk result (λ n. n ≤ length piece.now) }
        ensures moves { IfOk result (λ n. 0 < length piece.now → 0 < n) }
        ensures quiet { OnOk result (self.new ≡ self.old) }
        ensures counted { OnErr result (self.new ≡ one_more self.old) }
        ensures never_falls { self.old ≤ self.new }
    {
        match self.inner.write(piece) {
            Ok(n) if has_moved(n, piece) => Ok(n),
            _ => {
                self.faults = self.faults.saturating_add(1);
                Err(Failed)
            }
        }
    }
}

/// A write that took `n` octets of a piece has moved it on, or there was nothing to take.
fn has_moved(n: usize, piece: &[u8]) -> bool
    ensures { IsTrue result ↔ (0 < n) ⊎ (length piece.now ≡ 0) }
{
    n > 0 || piece.is_empty()
}
