//! The receiver of a stream of GFP frames (G.7041) that also tells of each segment which place was confirmed
//! first in it: its mark.
//!
//! It is a `Delineator`, which finds the frames, and beside it what the search for the mark has come to, in a
//! segment of fewer than 2^64 octets. It doesn't know at which place of its stream a segment begins.
//! `MarkedDelineator` is the place to begin; `confirm_law` says with which octet the state SYNC begins.

ghost use Rattle.std.specs.Prelude.{◌≡◌, ◌≢◌, ℕ, ◌+◌, ◌-◌, ◌^◌, ◌<◌, ◌≤◌, ◌↔◌, Bool, true, false, List, [], ◌∷◌, ◌++◌};
ghost use Rattle.std.specs.Prelude.{length, take, Option, Some, None, IfOk, IfSome, IfNone, IsSome};
ghost use Rattle.law_model.specs.Common.{core_header, Confirmed, hunt, is_sync};
ghost use Rattle.gfp_delineate.specs.Receiver.{most};
ghost use Rattle.gfp_delineate.specs.Repeated.{idles_from};
ghost use Rattle.terminal_sink.specs.marked_delineator.Marks.{first_place, next_mark, is_hunting, StandsIn};
ghost use Rattle.terminal_sink.specs.marked_delineator.Marks.{Advances, Brings, frame_of};
ghost use Rattle.terminal_sink.specs.marked_delineator.Marks.{told_outcomes, header_begun};

use gfp_delineate::{Delineator, Step};
use std::alloc::{AllocError, Global};
use std::marker::Model;

/// What is known of the mark of a segment.
#[derive(Clone, Copy, Debug, PartialEq, Eq)]
pub enum Mark {
    /// Nothing is confirmed in the octets that have come.
    Hunting {
        /// How many they are.
        come: u64,
    },
    /// A place is confirmed.
    Confirms {
        /// The first one, counted from the first octet of the segment.
        place: u64,
    },
}

impl Mark {
    /// The mark with one more octet. `synced` says whether the state is SYNC after it: the confirming header
    /// is then its last four octets.
    fn next(self, synced: bool) -> Mark
        ensures { result ≡ next_mark self synced }
    {
        match self {
            Mark::Hunting { come } => {
                if synced {
                    Mark::Confirms {
                        place: come.saturating_sub(3),
                    }
                } else {
                    Mark::Hunting {
                        come: if come < u64::MAX { come + 1 } else { come },
                    }
                }
            }
            Mark::Confirms { place } => Mark::Confirms { place },
        }
    }
}

/// Finds the frames in a stream, and the mark of each segment.
#[derive(Drop)]
pub struct MarkedDelineator {
    delineator: Delineator,
    mark: Mark,
}

impl Model for MarkedDelineator {
    ghost use Rattle.terminal_sink.specs.marked_delineator.Marks.{Marked};

    ghost Value = { Marked };

    ghost view = { λ s. record { receiver = s.delineator; mark = s.mark } };
}

impl MarkedDelineator {
    /// A receiver of a stream of which nothing has come. It has room for one frame of `max` octets, the most
    /// that it delivers.
    pub fn new(alloc: Global, max: u16) -> Result<MarkedDelineator, AllocError>
        requires { max ≤ most }
        ensures { IfOk result (λ marked. StandsIn marked max true []) }
    {
        Ok(MarkedDelineator {
            delineator: Delineator::new(alloc, max)?,
            mark: Mark::Hunting { come: 0 },
        })
    }

    /// Takes the next octet, as a `Delineator` does.
    pub fn byte(&mut self, octet: u8) -> Step
        ensures stands_in { Advances self.old self.new (octet ∷ []) }
        ensures outcome { Brings self.old (octet ∷ []) (told_outcomes self.new result) }
        ensures held { IsSome (frame_of self.new) ↔ (result ≡ Step.Frame) }
        ensures short { (longest : ℕ) (first : Bool) (octets : List ℕ) →
            StandsIn self.old longest first octets →
            IfSome (frame_of self.new) (λ frame. length frame ≤ longest) }
    {
        let step = self.delineator.byte(octet);
        self.mark = self.mark.next(self.delineator.synced());
        step
    }

    /// Takes octets as a `Delineator` does, at least one where there is one. The answer is their number, and what the
    /// last of them completed.
    pub fn feed(&mut self, piece: &[u8]) -> (usize, Step)
        ensures within { result.0 ≤ length piece.now }
        ensures none { (result.0 ≡ 0) ↔ (length piece.now ≡ 0) }
        ensures stands_in { Advances self.old self.new (take result.0 piece.now) }
        ensures outcome { Brings self.old (take result.0 piece.now) (told_outcomes self.new result.1) }
        ensures held { IsSome (frame_of self.new) ↔ (result.1 ≡ Step.Frame) }
        ensures short { (longest : ℕ) (first : Bool) (octets : List ℕ) →
            StandsIn self.old longest first octets →
            IfSome (frame_of self.new) (λ frame. length frame ≤ longest) }
    {
        if self.is_hunting() && piece.len() > 0 {
            (1, self.byte(piece[0]))
        } else {
            self.delineator.feed(piece)
        }
    }

    /// Whether nothing is confirmed in the octets that have come.
    fn is_hunting(&self) -> bool
        ensures { result ≡ is_hunting self.now.mark }
    {
        match self.mark {
            Mark::Hunting { .. } => true,
            Mark::Confirms { .. } => false,
        }
    }

    /// How many octets of the header of an idle frame came last, below four, in SYNC where a header is due, and `None`
    /// exactly in all other states, as a `Delineator` says. Idle frames that go on from there change nothing.
    pub fn idle_place(&self) -> Option<usize>
        ensures below { IfSome result (λ place. place < 4) }
        ensures idle { IfSome result (λ place.
            header_begun self.now ≡ Some (take place (core_header 0))) }
        ensures none { IfNone result ((place : ℕ) →
            header_begun self.now ≢ Some (take place (core_header 0))) }
        ensures stays { IfSome result (λ place. (count : ℕ) →
            Advances self.now self.now (idles_from place count)
            × Brings self.now (idles_from place count) []) }
    {
        self.delineator.idle_place()
    }

    /// The frame that the last octet completed.
    pub fn frame(&self) -> &[u8]
        requires { IsSome (frame_of self.now) }
        ensures { frame_of self.now ≡ Some result.now }
    {
        self.delineator.frame()
    }

    /// A break of the stream: the octets that come belong to a new segment. A frame that is held stays.
    pub fn broken(&mut self)
        ensures stands_in { (longest : ℕ) (first : Bool) (octets : List ℕ) →
            StandsIn self.old longest first octets →
            StandsIn self.new longest false [] }
        ensures held { frame_of self.new ≡ frame_of self.old }
    {
        self.delineator.broken();
        self.mark = Mark::Hunting { come: 0 };
    }

    /// The place that is confirmed first in the octets of the segment, counted from its first one.
    pub fn first_confirmed(&self) -> Option<u64>
        ensures { (longest : ℕ) (first : Bool) (octets : List ℕ) →
            StandsIn self.now longest first octets → length octets < 2 ^ 64 →
            result ≡ first_place octets }
    {
        match self.mark {
            Mark::Hunting { .. } => None,
            Mark::Confirms { place } => Some(place),
        }
    }
}

/// The state SYNC begins with the fourth octet of the header that confirms a place first.
pub fn confirm_law()
    ensures not_yet { (octets : List ℕ) → hunt true 0 octets ≡ None → is_sync octets ≡ false }
    ensures none { (octets : List ℕ) (octet : ℕ) → hunt true 0 octets ≡ None →
        is_sync (octets ++ octet ∷ []) ≡ false → hunt true 0 (octets ++ octet ∷ []) ≡ None }
    ensures some { (octets : List ℕ) (octet : ℕ) → hunt true 0 octets ≡ None →
        is_sync (octets ++ octet ∷ []) ≡ true →
        (found : Confirmed) × (hunt true 0 (octets ++ octet ∷ []) ≡ Some found)
        × (found.place + 4 ≡ length octets + 1) }
{}
