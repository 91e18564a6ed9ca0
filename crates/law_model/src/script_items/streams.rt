//! Streams among single items: a stream is items in a row that nobody keeps, each a frame of a rate.
ghost use Rattle.std.specs.Prelude.{◌≡◌, ◌<◌, ◌≤◌, ◌+◌, [], ◌∷◌, ◌++◌, OnOk, OnErr, IfOk};
ghost use Rattle.law_rates.specs.Rates.{IsRate, count_of};
ghost use Rattle.law_model.specs.Limits.{most_items};
ghost use Rattle.law_model.specs.session.Streams.{AreStreams, IsFirstAbove, IsPlace, behind_of, streamed_in};

use law_rates::{Rate, count};
use std::alloc::{AllocError, Global};
use std::marker::Model;

/// The frames of a rate as items in a row.
#[derive(Clone, Copy, Debug)]
pub struct Stream {
    /// What they are.
    pub rate: Rate,
    /// The number of the first.
    pub first: u32,
    /// The number of the item behind the last.
    pub behind: u32,
    /// How many items of streams stand before the first.
    pub before: u32,
}

/// Where an item stands.
#[derive(Clone, Copy)]
pub enum Place<'a> {
    /// Among the single items, by their numbers from 0.
    Single(u32),
    /// In a stream.
    Streamed(&'a Stream),
}

/// The streams among the items of a list, in their order. The single items are kept elsewhere.
#[derive(Drop)]
pub struct Streams {
    streams: Vec<Stream>,
    /// The number of the item behind the last stream.
    behind: u32,
    /// How many items streams have.
    streamed: u32,
}

impl Model for Streams {
    ghost use Rattle.std.specs.Prelude.{◌≡◌, ◌≤◌, List};
    ghost use Rattle.law_model.specs.declared.script_items.streams.Stream.{Stream};
    ghost use Rattle.law_model.specs.Limits.{most_items};
    ghost use Rattle.law_model.specs.session.Streams.{AreStreams, behind_of, streamed_in};

    ghost Value = { List Stream };

    ghost view = { λ s. s.streams.items };

    ghost invariant = { λ s. (AreStreams 0 0 s.streams.items)
        × (s.behind ≡ behind_of 0 s.streams.items)
        × (s.streamed ≡ streamed_in s.streams.items)
        × (s.behind ≤ most_items) };
}

impl Streams {
    /// No stream.
    pub fn new(alloc: Global) -> Streams
        ensures { result ≡ [] }
    {
        Streams {
            streams: Vec::new(alloc),
            behind: 0,
            streamed: 0,
        }
    }

    /// Adds the stream of a rate behind so many items.
    pub fn push(&mut self, rate: &Rate, first: u32) -> Result<(), AllocError>
        requires rate { IsRate rate.now }
        requires later { behind_of 0 self.old ≤ first }
        requires few { first + count_of rate.now ≤ most_items }
        ensures added { OnOk result (self.new ≡ self.old ++ record {
          rate = rate.now;
          first = first;
          behind = first + count_of rate.now;
          before = streamed_in self.old;
        } ∷ []) }
        ensures kept { OnErr result (self.new ≡ self.old) }
    {
        let items = count(rate) as u32;
        let behind = first + items;
        self.streams.push(Stream {
            rate: *rate,
            first,
            behind,
            before: self.streamed,
        })?;
        self.behind = behind;
        self.streamed += items;
        Ok(())
    }

    /// How many items streams have.
    pub fn streamed(&self) -> u32
        ensures items { result ≡ streamed_in self.now }
        ensures few { result ≤ most_items }
        ensures apart { AreStreams 0 0 self.now }
    {
        self.streamed
    }

    /// Where the item of a number stands.
    pub fn place(&self, number: u32) -> Place<'_>
        ensures { IsPlace self.now number result }
    {
        if number >= self.behind {
            return Place::Single(number - self.streamed);
        }
        let next = first_above(&self.streams, number);
        if number < next.first {
            Place::Single(number - next.before)
        } else {
            Place::Streamed(next)
        }
    }

    /// The same streams once more.
    pub fn copy(&self) -> Result<Streams, AllocError>
        ensures { IfOk result (λ copy. copy ≡ self.now) }
    {
        Ok(Streams {
            streams: self.streams.clone()?,
            behind: self.behind,
            streamed: self.streamed,
        })
    }
}

/// The first stream that ends above a number.
fn first_above(streams: &[Stream], number: u32) -> &Stream
    requires apart { AreStreams 0 0 streams.now }
    requires some { number < behind_of 0 streams.now }
    ensures { IsFirstAbove streams.now 0 number result.now }
{
    let passed = streams.partition_point(|stream| stream.behind <= number);
    &streams[passed]
}
