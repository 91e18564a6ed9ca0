//! A source and a sink in memory, which tell all, and whose calls fail on demand.
ghost use Rattle.std.specs.Prelude.{◌≡◌, ◌<◌, ◌≤◌, ◌↔◌, ◌-◌, [], ◌++◌, length, take, drop, min, Some, None};
ghost use Rattle.std.specs.Prelude.{IfSome, Contains, IsTrue, IsErr, IfOk, OnErr};
ghost use Rattle.octet_io.specs.FaultCounts.{one_more};
ghost use Rattle.octet_io.specs.Memory.{given_at_once, IsFailingTake, IsFailingPut};

use crate::source_and_sink::{ByteSink, ByteSource, Failed};
use std::alloc::{AllocError, Global};
use std::marker::Model;

/// A source of octets in memory, whose calls of chosen numbers fail.
#[derive(Drop)]
pub struct MemSource {
    bytes: Vec<u8>,
    at: usize,
    /// The most octets that one call gives, where there is a limit.
    step: Option<usize>,
    fail: Vec<u32>,
    calls: u64,
    faults: u64,
}

impl Model for MemSource {
    ghost use Rattle.std.specs.Prelude.{◌≤◌, vec_len, drop, IfSome};
    ghost use Rattle.octet_io.specs.Memory.{MemSourceState};

    ghost Value = { MemSourceState };

    ghost view = { λ source. record {
      left = drop source.at source.bytes.items;
      step = source.step;
      fail = source.fail.items;
      calls = source.calls;
      faults = source.faults;
    } };

    ghost invariant = { λ source.
        (source.at ≤ vec_len source.bytes) × IfSome source.step (λ step. 1 ≤ step) };
}

impl MemSource {
    /// A source of these octets. The calls of `take` whose numbers are in `fail` fail, and the first has number 0.
    pub fn new(alloc: Global, bytes: &[u8], fail: &[u32]) -> Result<MemSource, AllocError>
        ensures { IfOk result (λ source.
            source ≡ record { left = bytes.now; step = None; fail = fail.now; calls = 0; faults = 0 }) }
    {
        source_of(alloc, bytes, fail, None)
    }

    /// Such a source that gives at most `step` octets in a call.
    pub fn in_steps(
        alloc: Global,
        bytes: &[u8],
        fail: &[u32],
        step: usize,
    ) -> Result<MemSource, AllocError>
        requires { 1 ≤ step }
        ensures { IfOk result (λ source. source
            ≡ record { left = bytes.now; step = Some step; fail = fail.now; calls = 0; faults = 0 }) }
    {
        source_of(alloc, bytes, fail, Some(step))
    }
}

impl ByteSource for MemSource {
    ghost left = { λ source. Some source.left };

    ghost faults = { λ source. source.faults };

    fn take(&mut self, buf: &mut [u8]) -> Result<usize, Failed>
        ensures fails { IsErr result ↔ IsFailingTake self.old }
        ensures count { IfOk result (λ n. n
            ≡ min (length buf.old) (given_at_once self.old.step (length self.old.left))) }
        ensures end { IfOk result (λ n. n ≡ 0 → 0 < length buf.old → length self.new.left ≡ 0) }
        ensures filled { IfOk result (λ n. buf.new ≡ take n self.old.left ++ drop n buf.old) }
        ensures after { IfOk result (λ n. self.new ≡ record self.old {
          left = drop n self.old.left;
          calls = one_more self.old.calls;
        }) }
        ensures after_fault { OnErr result (self.new ≡ record self.old {
          calls = one_more self.old.calls;
          faults = one_more self.old.faults;
        }) }
        ensures never_falls { self.old.faults ≤ self.new.faults }
        ensures untouched { OnErr result (buf.new ≡ buf.old) }
    {
        let fails = is_among(&self.fail, self.calls);
        self.calls = self.calls.saturating_add(1);
        if fails {
            self.faults = self.faults.saturating_add(1);
            return Err(Failed);
        }
        let left = self.bytes.len() - self.at;
        let most = self.step.map_or(left, |step| step.min(left));
        let n = copy_front(&self.bytes[self.at..self.at + most], buf);
        self.at += n;
        Ok(n)
    }
}

/// A sink of octets in memory, of limited room, whose calls of chosen numbers fail.
#[derive(Drop)]
pub struct MemSink {
    bytes: Vec<u8>,
    room: usize,
    fail: Vec<u32>,
    calls: u64,
    faults: u64,
}

impl Model for MemSink {
    ghost use Rattle.std.specs.Prelude.{◌≤◌, ◌+◌, vec_len, vec_capacity};
    ghost use Rattle.octet_io.specs.Memory.{MemSinkState};

    ghost Value = { MemSinkState };

    ghost view = { λ sink. record {
      written = sink.bytes.items;
      room = sink.room;
      fail = sink.fail.items;
      calls = sink.calls;
      faults = sink.faults;
    } };

    ghost invariant = { λ sink. vec_len sink.bytes + sink.room ≤ vec_capacity sink.bytes };
}

impl MemSink {
    /// An empty sink with room for `room` octets, all of which is taken now. The calls of `put` whose numbers are
    /// in `fail` fail, and the first has number 0; so does a call with a piece that isn't empty where no room is left.
    pub fn new(alloc: Global, room: usize, fail: &[u32]) -> Result<MemSink, AllocError>
        ensures { IfOk result (λ sink.
            sink ≡ record { written = []; room = room; fail = fail.now; calls = 0; faults = 0 }) }
    {
        Ok(MemSink {
            bytes: Vec::with_capacity(alloc, room)?,
            room,
            fail: Vec::from_slice(alloc, fail)?,
            calls: 0,
            faults: 0,
        })
    }

    /// The octets that are written.
    pub fn bytes(&self) -> &[u8]
        ensures { result.now ≡ self.now.written }
    {
        self.bytes.as_slice()
    }
}

impl ByteSink for MemSink {
    ghost written = { λ sink. Some sink.written };

    ghost faults = { λ sink. sink.faults };

    fn put(&mut self, piece: &[u8]) -> Result<usize, Failed>
        ensures fails { IsErr result ↔ IsFailingPut self.old piece.now }
        ensures count { IfOk result (λ n. n ≡ min (length piece.now) self.old.room) }
        ensures after { IfOk result (λ n. self.new ≡ record self.old {
          written = self.old.written ++ take n piece.now;
          room = self.old.room - n;
          calls = one_more self.old.calls;
        }) }
        ensures after_fault { OnErr result (self.new ≡ record self.old {
          calls = one_more self.old.calls;
          faults = one_more self.old.faults;
        }) }
        ensures never_falls { self.old.faults ≤ self.new.faults }
    {
        let fails = is_among(&self.fail, self.calls) || (self.room == 0 && !piece.is_empty());
        self.calls = self.calls.saturating_add(1);
        if fails {
            self.faults = self.faults.saturating_add(1);
            return Err(Failed);
        }
        let n = piece.len().min(self.room);
        match self.bytes.extend_from_slice(&piece[..n]) {
            Ok(()) => {
                self.room -= n;
                Ok(n)
            }
            Err(_) => unreachable!(),
        }
    }
}

/// A source of octets at its start.
fn source_of(
    alloc: Global,
    bytes: &[u8],
    fail: &[u32],
    step: Option<usize>,
) -> Result<MemSource, AllocError>
    requires { IfSome step (λ step. 1 ≤ step) }
    ensures { IfOk result (λ source. source
        ≡ record { left = bytes.now; step = step; fail = fail.now; calls = 0; faults = 0 }) }
{
    Ok(MemSource {
        bytes: Vec::from_slice(alloc, bytes)?,
        at: 0,
        step,
        fail: Vec::from_slice(alloc, fail)?,
        calls: 0,
        faults: 0,
    })
}

fn is_among(numbers: &[u32], call: u64) -> bool
    ensures { IsTrue result ↔ Contains numbers.now call }
{
    numbers.iter().any(|&number| u64::from(number) == call)
}

fn copy_front(from: &[u8], to: &mut [u8]) -> usize
    ensures count { result ≡ min (length to.old) (length from.now) }
    ensures filled { to.new ≡ take result from.now ++ drop result to.old }
    ensures moved { from.now ≡ take result to.new ++ drop result from.now }
{
    let n = from.len().min(to.len());
    to[..n].copy_from_slice(&from[..n]);
    n
}
