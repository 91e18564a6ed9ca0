//! The payload areas of a stream, found from any place of it on.

ghost use Rattle.std.specs.Prelude.{◌≡◌, ◌≢◌, ℕ, ◌-◌, ◌<◌, ◌≤◌, Bool, true, false, List, [], ◌∷◌, length, take};
ghost use Rattle.std.specs.Prelude.{IfOk, IfSome, IfNone, Some};
ghost use Rattle.law_model.specs.Common.{core_header};
ghost use Rattle.gfp_delineate.specs.Repeated.{idles_from};
ghost use Rattle.gfp_delineate.specs.ReceivedAreas.{IsAt, Goes, Adds, ends_told, header_begun_in, is_sync_by};

use crate::idle_runs::begins_idle;
use gfp_scramble::Descrambler;
use std::alloc::{AllocError, Global};
use std::marker::Model;

/// Why the octets of an area are not kept: the descrambler was not settled when it began, or it is longer than an area
/// that is kept may be, and has `pli` octets.
#[derive(Clone, Copy, Debug, PartialEq, Eq)]
pub enum AreaWhy {
    /// The descrambler was not settled.
    Unsettled,
    /// The area is too long.
    TooLong {
        /// How many octets it has.
        pli: u16,
    },
}

/// What an octet completes: nothing, an area that is kept, or one that is not.
#[derive(Clone, Copy, Debug, PartialEq, Eq)]
pub enum AreaStep {
    /// Nothing.
    Nothing,
    /// An area, whose descrambled octets the receiver holds.
    Area,
    /// An area whose octets are not kept, for this cause.
    Dropped(AreaWhy),
}

/// Where in a piece of the stream a receiver is.
#[derive(Clone, Copy)]
pub enum Phase {
    /// HUNT, after a number of octets, below four, at which a header may have begun.
    Hunt { have: u8 },
    /// PRESYNC, in the area after a header, of which a number of octets is left to come.
    PresyncArea { left: u16 },
    /// PRESYNC, after a number of octets, below four, of the header that confirms.
    PresyncHeader { have: u8 },
    /// SYNC, after a number of octets, below four, of a header.
    SyncHeader { have: u8 },
    /// SYNC, in an area that is kept, of which a number of octets is left to come.
    SyncArea { left: u16 },
    /// SYNC, in an area that is dropped, of which a number of octets is left to come.
    SyncPassing { left: u16, why: AreaWhy },
}

/// Finds the payload areas in a stream, whatever is in them: what an area is, a receiver of frames judges. It keeps one
/// area at a time.
#[derive(Drop)]
pub struct AreaReceiver {
    /// The most octets of an area that is kept.
    pub(crate) longest: u16,
    /// Whether a header with one wrong bit counts as a header in SYNC.
    pub(crate) corrects: bool,
    pub(crate) phase: Phase,
    /// The last octets of what may be a header.
    pub(crate) window: [u8; 4],
    pub(crate) descrambler: Descrambler,
    /// The descrambled octets of an area, or the last area that was kept.
    pub(crate) area: Vec<u8>,
}

impl Model for AreaReceiver {
    ghost use Rattle.std.specs.Prelude.{vec_len, vec_capacity};
    ghost use Rattle.gfp_delineate.specs.ReceivedAreas.{Progress, IsSound};

    ghost Value = { Progress };

    ghost view = { λ s. record {
      longest = s.longest;
      corrects = s.corrects;
      phase = s.phase;
      window = s.window;
      descrambling = s.descrambler;
      area = s.area.items;
    } };

    ghost invariant = { λ s. IsSound s.longest (vec_capacity s.area) (vec_len s.area) s.phase };
}

impl AreaReceiver {
    /// A receiver of a stream of which nothing has come. It has room for one area of `longest` octets, the most that it
    /// keeps. In SYNC it corrects headers with one wrong bit if `corrects`, else it corrects none.
    pub fn new(alloc: Global, longest: u16, corrects: bool) -> Result<AreaReceiver, AllocError>
        ensures { IfOk result (λ receiver. IsAt receiver longest corrects true []) }
    {
        Ok(AreaReceiver {
            longest,
            corrects,
            phase: Phase::Hunt { have: 0 },
            window: [0; 4],
            descrambler: Descrambler::new(),
            area: Vec::with_capacity(alloc, usize::from(longest))?,
        })
    }

    /// Takes the next octet. `Area` and `Dropped` come at the last octet of an area that isn't empty.
    #[inline]
    pub fn byte(&mut self, octet: u8) -> AreaStep
        ensures stands { Goes self.old self.new (octet ∷ []) }
        ensures outcome { Adds self.old (octet ∷ []) (ends_told self.new.area result) }
        ensures least { result ≡ AreaStep.Area → 4 ≤ length self.new.area }
        ensures greatest { result ≡ AreaStep.Area → length self.new.area ≤ self.new.longest }
    {
        let (_, step) = self.step(&[octet]);
        step
    }

    /// Takes octets as `byte` does, up to and including the first at which it answers other than `Nothing`,
    /// or all of them. The answer is their number, and that step or `Nothing`.
    pub fn feed(&mut self, piece: &[u8]) -> (usize, AreaStep)
        ensures within { result.0 ≤ length piece.now }
        ensures some { 0 < length piece.now → 0 < result.0 }
        ensures all { result.1 ≡ AreaStep.Nothing → result.0 ≡ length piece.now }
        ensures stands { Goes self.old self.new (take result.0 piece.now) }
        ensures outcome { Adds self.old (take result.0 piece.now)
            (ends_told self.new.area result.1) }
        ensures first { result.1 ≢ AreaStep.Nothing →
            Adds self.old (take (result.0 - 1) piece.now) [] }
        ensures least { result.1 ≡ AreaStep.Area → 4 ≤ length self.new.area }
        ensures greatest { result.1 ≡ AreaStep.Area → length self.new.area ≤ self.new.longest }
    {
        let mut at = 0;
        while at < piece.len() {
            let (taken, step) = self.step(&piece[at..]);
            at += taken;
            match step {
                AreaStep::Nothing => {}
                _ => return (at, step),
            }
        }
        (at, AreaStep::Nothing)
    }

    /// The area that is held, where the last `byte` or `feed` completed one.
    #[inline]
    pub fn area(&self) -> &[u8]
        ensures { result.now ≡ self.now.area }
    {
        &self.area
    }

    /// A break of the stream: the octets that come belong to a new segment. An area that is held stays.
    pub fn broken(&mut self)
        ensures stands { (longest : ℕ) (corrects first : Bool) (octets : List ℕ) →
            IsAt self.old longest corrects first octets → IsAt self.new longest corrects false [] }
        ensures held { self.new.area ≡ self.old.area }
    {
        self.descrambler.forget();
        self.phase = Phase::Hunt { have: 0 };
    }

    /// How many octets of the header of an idle frame came last, below four, in SYNC where a header is due, and `None`
    /// exactly in all other states. Idle frames that go on from there change nothing.
    pub fn idle_place(&self) -> Option<usize>
        ensures below { IfSome result (λ place. place < 4) }
        ensures idle { IfSome result (λ place.
            header_begun_in self.now.phase self.now.window ≡ Some (take place (core_header 0))) }
        ensures none { IfNone result ((place : ℕ) →
            header_begun_in self.now.phase self.now.window ≢ Some (take place (core_header 0))) }
        ensures stays { IfSome result (λ place. (count : ℕ) →
            Goes self.now self.now (idles_from place count)
            × Adds self.now (idles_from place count) []) }
    {
        match self.phase {
            Phase::SyncHeader { have } if begins_idle(&self.window, have) => {
                Some(usize::from(have))
            }
            _ => None,
        }
    }

    /// Whether the state is SYNC.
    pub fn synced(&self) -> bool
        ensures { (longest : ℕ) (corrects first : Bool) (octets : List ℕ) →
            IsAt self.now longest corrects first octets → result ≡ is_sync_by corrects octets }
    {
        match self.phase {
            Phase::Hunt { .. } | Phase::PresyncArea { .. } | Phase::PresyncHeader { .. } => false,
            Phase::SyncHeader { .. } | Phase::SyncArea { .. } | Phase::SyncPassing { .. } => true,
        }
    }
}
