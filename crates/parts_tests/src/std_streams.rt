//! Readers and writers of the standard library that fail in mid-stream.

use octet_io::{ByteSink, ByteSource, Failed, StdSink, StdSource, put_all, read_all};
use std::alloc::Global;
use std::io::{self, Read, Write};

/// Moves at most two octets in a call, and fails once its calls are used up. What is written is lost.
#[derive(Drop)]
struct Trickle {
    octets: &'static [u8],
    calls_left: u8,
}

/// As many octets, and four calls.
fn four_calls(octets: &'static [u8]) -> Trickle {
    Trickle {
        octets,
        calls_left: 4,
    }
}

impl Trickle {
    /// Uses a call up.
    fn call(&mut self) -> io::Result<()> {
        if self.calls_left == 0 {
            return Err(io::Error::from(io::ErrorKind::BrokenPipe));
        }
        self.calls_left -= 1;
        Ok(())
    }
}

impl Read for Trickle {
    fn read(&mut self, buf: &mut [u8]) -> io::Result<usize> {
        self.call()?;
        let n = buf.len().min(2);
        self.octets.read(&mut buf[..n])
    }
}

impl Write for Trickle {
    fn write(&mut self, buf: &[u8]) -> io::Result<usize> {
        self.call()?;
        Ok(buf.len().min(2))
    }

    fn flush(&mut self) -> io::Result<()> {
        Ok(())
    }
}

/// Whether a reader is read to its end, and its failure told.
fn is_failure_read(alloc: Global) -> bool {
    let mut source = StdSource::new(four_calls(b"frame"));
    match read_all(alloc, &mut source, 5) {
        Ok(text) => text.as_slice() == b"frame".as_slice()
            && source.take(&mut [0u8; 4]) == Err(Failed),
        Err(_) => false,
    }
}

/// Whether a writer is written to, and its failure told.
fn is_failure_written() -> bool {
    let mut sink = StdSink::new(four_calls(b""));
    put_all(&mut sink, b"frame") == Ok(()) && put_all(&mut sink, b"fill") == Err(Failed)
}

/// Whether a writer of three octets takes no more.
fn is_full(room: &mut [u8]) -> bool {
    let mut sink = StdSink::new(room);
    sink.put(b"frame") == Ok(3) && sink.put(b"me") == Err(Failed) && sink.put(b"") == Ok(0)
}

#[test]
fn readers_and_writers(rt: HostRuntime) {
    let mut room = [0u8; 3];
    let seen = [
        is_failure_read(rt.alloc()),
        is_failure_written(),
        is_full(&mut room),
    ];
    assert_eq!(rt; (seen, room), ([true; 3], *b"fra"));
}
