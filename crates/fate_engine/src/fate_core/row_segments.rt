//! The segments of the taken rows, by their rows, and their marks.
ghost use Rattle.std.specs.Prelude.{◌≡◌, ◌+◌, ◌^◌, ◌<◌, [], ◌∷◌, ◌++◌, length, List, OnOk, OnErr, slice_get};
ghost use Rattle.std.specs.Prelude.{Option, None, false};
ghost use Rattle.std.specs.Option.{ForSome};
ghost use Rattle.law_model.specs.Common.{StreamRow};
ghost use Rattle.fate_engine.specs.fate_law.Spans.{later_segments};
ghost use Rattle.fate_engine.specs.fate_core.Segments.{SegmentsStand, Tells, IsAround, is_told, gone_on, broken_off};

use crate::fate_law::RowSegment;
use std::alloc::{AllocError, Global};
use std::marker::Model;

/// Where a row lies among segments.
#[derive(Clone, Copy)]
pub struct Around {
    /// The first row from it on that isn't whole.
    pub spoiled: u32,
    /// It lies in the first segment.
    pub first: bool,
    /// The mark of its segment, where it lies in another one.
    pub mark: Option<u64>,
}

/// In a segment but the first.
fn within(segment: RowSegment) -> Around
    ensures { result ≡ record { spoiled = segment.end; first = false; mark = segment.mark } }
{
    Around {
        spoiled: segment.end,
        first: false,
        mark: segment.mark,
    }
}

/// A row that isn't whole itself.
fn nowhere(row: u32) -> Around
    ensures { result ≡ record { spoiled = row; first = false; mark = None } }
{
    Around {
        spoiled: row,
        first: false,
        mark: None,
    }
}

/// The segments of the rows that were taken: which rows they have, and the place that is confirmed first in
/// each but the first.
#[derive(Drop)]
pub struct Segments {
    /// How many rows there are.
    rows: u32,
    /// How many rows come before the first that isn't whole.
    first: u32,
    /// The segments but the first that have ended and have a row.
    ended: Vec<RowSegment>,
    /// The one that goes on with the next row.
    last: RowSegment,
    /// The place of the stream at which it begins.
    base: u64,
}

impl Model for Segments {
    ghost use Rattle.fate_engine.specs.fate_core.Segments.{SegmentList, AreSegments};

    ghost Value = { SegmentList };

    ghost view = { λ s. record {
      rows = s.rows;
      first = s.first;
      ended = s.ended.items;
      last = s.last;
      base = s.base;
    } };

    ghost invariant = { λ s. AreSegments
        (record { rows = s.rows; first = s.first; ended = s.ended.items; last = s.last; base = s.base }) };
}

impl Segments {
    /// Before any row.
    pub fn new(alloc: Global) -> Segments
        ensures { SegmentsStand result [] }
    {
        Segments {
            rows: 0,
            first: 0,
            ended: Vec::new(alloc),
            last: RowSegment {
                first: 0,
                end: 0,
                mark: None,
            },
            base: 0,
        }
    }

    /// Takes the next row: whether it is whole, the place of the stream at which it ends, and what the
    /// receiver tells after it of the segment that goes on: the place that it confirmed first, counted from
    /// the segment's first octet. Where memory is short nothing changes.
    pub fn row(&mut self, whole: bool, end: u64, confirmed: Option<u64>) -> Result<(), AllocError>
        requires rows { self.old.rows < 4294967295 }
        requires end { end < 2 ^ 63 }
        requires confirmed { ForSome confirmed (λ place. place < 2 ^ 63) }
        ensures ok { (rows : List StreamRow) (row : StreamRow) → SegmentsStand self.old rows →
            row.whole ≡ whole → Tells (rows ++ row ∷ []) end confirmed →
            OnOk result (SegmentsStand self.new (rows ++ row ∷ [])) }
        ensures rows { OnOk result (self.new.rows ≡ self.old.rows + 1) }
        ensures err { OnErr result (self.new ≡ self.old) }
    {
        prove!(self.last.end == self.rows);
        if whole {
            self.go_on(confirmed);
        } else {
            self.break_off(end)?;
        }
        Ok(())
    }

    /// How many rows there are.
    pub fn rows(&self) -> u32
        ensures { result ≡ self.now.rows }
    {
        self.rows
    }

    /// How many segments but the first have a row.
    pub fn later_count(&self) -> usize
        ensures { (rows : List StreamRow) → SegmentsStand self.now rows →
            result ≡ length (later_segments rows) }
    {
        let ended = self.ended.len();
        if self.is_told() { ended + 1 } else { ended }
    }

    /// A segment, of those but the first that have a row, counted from 0 in their order.
    pub fn later(&self, i: usize) -> Option<RowSegment>
        ensures { (rows : List StreamRow) → SegmentsStand self.now rows →
            result ≡ slice_get (later_segments rows) i }
    {
        if i < self.ended.len() {
            Some(self.ended[i])
        } else if i == self.ended.len() && self.is_told() {
            Some(self.last)
        } else {
            None
        }
    }

    /// Where a row lies.
    pub fn around(&self, row: u32) -> Around
        ensures { (rows : List StreamRow) → SegmentsStand self.now rows → row < length rows →
            IsAround rows row result }
    {
        if row < self.first {
            return Around {
                spoiled: self.first,
                first: true,
                mark: None,
            };
        }
        if self.last.first <= row {
            return within(self.last);
        }
        let passed = self.ended.partition_point(|segment| segment.end <= row);
        match self.ended[passed..].first() {
            Some(segment) => {
                if segment.first <= row {
                    within(*segment)
                } else {
                    nowhere(row)
                }
            }
            None => nowhere(row),
        }
    }

    /// Whether the segment that goes on has a row and isn't the first.
    fn is_told(&self) -> bool
        ensures { result ≡ is_told self.now }
    {
        self.first < self.last.first && self.last.first < self.last.end
    }

    /// A whole row goes on with the last segment.
    fn go_on(&mut self, confirmed: Option<u64>)
        requires rows { self.old.rows < 4294967295 }
        requires confirmed { ForSome confirmed (λ place. place < 2 ^ 63) }
        ensures { self.new ≡ gone_on self.old confirmed }
    {
        if self.last.first <= self.first {
            self.first += 1;
        }
        self.rows += 1;
        self.last.end = self.rows;
        self.last.mark = match confirmed {
            Some(place) => Some(self.base + place),
            None => None,
        };
    }

    /// Another row ends it, and the next one begins behind that row.
    fn break_off(&mut self, end: u64) -> Result<(), AllocError>
        requires rows { self.old.rows < 4294967295 }
        requires end { end < 2 ^ 63 }
        ensures ok { OnOk result (self.new ≡ broken_off self.old end) }
        ensures err { OnErr result (self.new ≡ self.old) }
    {
        if self.is_told() {
            self.ended.push(self.last)?;
        }
        self.rows += 1;
        self.last = RowSegment {
            first: self.rows,
            end: self.rows,
            mark: None,
        };
        self.base = end;
        Ok(())
    }
}
