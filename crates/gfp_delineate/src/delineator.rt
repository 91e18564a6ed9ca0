//! The receiver of a stream of GFP frames: which frame an octet completes, or why one is dropped.
ghost use Rattle.std.specs.Prelude.{◌≡◌, ◌≢◌, ℕ, ◌+◌, ◌-◌, ◌<◌, ◌≤◌, ◌↔◌, Bool, true, false, List, [], ◌∷◌};
ghost use Rattle.std.specs.Prelude.{length, map, take, drop, All, IfOk, IfSome, IfNone, IsSome, IsTrue};
ghost use Rattle.law_model.specs.Common.{core_header, stream_of, frames_by, is_sync, type_fault, outcome_by, delivered};
ghost use Rattle.law_model.specs.frames.Piece.{opening};
ghost use Rattle.gfp_delineate.specs.Repeated.{idles_from};
ghost use Rattle.gfp_delineate.specs.Receiver.{most, StandsIn, Advances, Brings, frame_of, header_begun, told_outcomes};
ghost use Rattle.gfp_delineate.specs.ReceivedAreas.{ends_told};
ghost use Rattle.gfp_delineate.specs.Receiver.{IsClientFrame, outcomes_told, client_of};

use crate::area_octets::first_four;
use crate::hunt_presync_sync::{AreaReceiver, AreaStep, AreaWhy};
use gfp_headers::read_type;
use law_model::Why;
use std::alloc::{AllocError, Global};
use std::marker::Model;

/// What an octet completes: nothing, a frame that is delivered, or a client frame that is not.
#[derive(Clone, Copy, Debug, PartialEq, Eq)]
pub enum Step {
    /// Nothing.
    Nothing,
    /// A frame that is delivered, which the receiver holds.
    Frame,
    /// A client frame that is not delivered, for this cause.
    Dropped(Why),
}

impl Step {
    fn is_frame(self) -> bool
        ensures { IsTrue result ↔ (self ≡ Step.Frame) }
    {
        matches!(self, Step::Frame)
    }
}

/// Finds the frames in a stream.
#[derive(Drop)]
pub struct Delineator {
    receiver: AreaReceiver,
    /// Whether the last `byte` or `feed` completed the frame in the area that the receiver holds.
    holds: bool,
}

impl Model for Delineator {
    ghost use Rattle.gfp_delineate.specs.Receiver.{Receiver};

    ghost Value = { Receiver };

    ghost view = { λ s. record { progress = s.receiver; holds = s.holds } };
}

impl Delineator {
    /// A receiver of a stream of which nothing has come. It has room for one frame of `max` octets, the most
    /// that it delivers.
    pub fn new(alloc: Global, max: u16) -> Result<Delineator, AllocError>
        requires { max ≤ most }
        ensures { IfOk result (λ delineator. StandsIn delineator max true []) }
    {
        Ok(Delineator {
            receiver: AreaReceiver::new(alloc, max + 4, false)?,
            holds: false,
        })
    }

    /// Takes the next octet. `Frame` and `Dropped` come at the last octet of the area of a client frame.
    #[inline]
    pub fn byte(&mut self, octet: u8) -> Step
        ensures stands_in { Advances self.old self.new (octet ∷ []) }
        ensures outcome { Brings self.old (octet ∷ []) (told_outcomes self.new result) }
        ensures held { IsSome (frame_of self.new) ↔ (result ≡ Step.Frame) }
        ensures short { (longest : ℕ) (first : Bool) (octets : List ℕ) →
            StandsIn self.old longest first octets →
            IfSome (frame_of self.new) (λ frame. length frame ≤ longest) }
    {
        let end = self.receiver.byte(octet);
        let step = step_of(end, self.receiver.area());
        self.holds = step.is_frame();
        step
    }

    /// Takes octets as `byte` does, up to and including the first at which it answers other than `Nothing`,
    /// or all of them. The answer is their number, and that step or `Nothing`.
    pub fn feed(&mut self, piece: &[u8]) -> (usize, Step)
        ensures within { result.0 ≤ length piece.now }
        ensures none { (result.0 ≡ 0) ↔ (length piece.now ≡ 0) }
        ensures all { result.1 ≡ Step.Nothing → result.0 ≡ length piece.now }
        ensures stands_in { Advances self.old self.new (take result.0 piece.now) }
        ensures outcome { Brings self.old (take result.0 piece.now) (told_outcomes self.new result.1) }
        ensures first_step { result.1 ≢ Step.Nothing →
            Brings self.old (take (result.0 - 1) piece.now) [] }
        ensures held { IsSome (frame_of self.new) ↔ (result.1 ≡ Step.Frame) }
        ensures short { (longest : ℕ) (first : Bool) (octets : List ℕ) →
            StandsIn self.old longest first octets →
            IfSome (frame_of self.new) (λ frame. length frame ≤ longest) }
    {
        let (taken, end) = self.receiver.feed(piece);
        let step = step_of(end, self.receiver.area());
        self.holds = step.is_frame();
        (taken, step)
    }

    /// The frame that the last `byte` or `feed` completed.
    pub fn frame(&self) -> &[u8]
        requires { IsSome (frame_of self.now) }
        ensures { frame_of self.now ≡ Some result.now }
    {
        &self.receiver.area()[4..]
    }

    /// A break of the stream: the octets that come belong to a new segment. A frame that is held stays.
    pub fn broken(&mut self)
        ensures stands_in { (longest : ℕ) (first : Bool) (octets : List ℕ) →
            StandsIn self.old longest first octets →
            StandsIn self.new longest false [] }
        ensures held { frame_of self.new ≡ frame_of self.old }
    {
        self.receiver.broken();
    }

    /// How many octets of the header of an idle frame came last, below four, in SYNC where a header is due, and `None`
    /// exactly in all other states. Idle frames that go on from there change nothing.
    pub fn idle_place(&self) -> Option<usize>
        ensures below { IfSome result (λ place. place < 4) }
        ensures idle { IfSome result (λ place.
            header_begun self.now ≡ Some (take place (core_header 0))) }
        ensures none { IfNone result ((place : ℕ) →
            header_begun self.now ≢ Some (take place (core_header 0))) }
        ensures stays { IfSome result (λ place. (count : ℕ) →
            Advances self.now self.now (idles_from place count)
            × Brings self.now (idles_from place count) []) }
    {
        self.receiver.idle_place()
    }

    /// Whether the state is SYNC.
    pub fn synced(&self) -> bool
        ensures { (longest : ℕ) (first : Bool) (octets : List ℕ) →
            StandsIn self.now longest first octets →
            result ≡ is_sync octets }
    {
        self.receiver.synced()
    }
}

/// What an octet completes, by how the area ended.
#[inline]
fn step_of(end: AreaStep, area: &[u8]) -> Step
    requires { end ≡ AreaStep.Area → 4 ≤ length area.now }
    ensures outcome { outcomes_told (Some (drop 4 area.now)) result
        ≡ map client_of (ends_told area.now end) }
    ensures nothing { (result ≡ Step.Nothing) ↔ (end ≡ AreaStep.Nothing) }
    ensures frame { result ≡ Step.Frame → end ≡ AreaStep.Area }
{
    match end {
        AreaStep::Nothing => Step::Nothing,
        AreaStep::Area => client_step(area),
        AreaStep::Dropped(AreaWhy::Unsettled) => Step::Dropped(Why::Unsettled),
        AreaStep::Dropped(AreaWhy::TooLong { pli }) => Step::Dropped(Why::TooLong { pli }),
    }
}

/// What comes of a whole area.
fn client_step(area: &[u8]) -> Step
    requires { 4 ≤ length area.now }
    ensures outcome { outcomes_told (Some (drop 4 area.now)) result
        ≡ outcome_by (type_fault (take 4 area.now)) area.now ∷ [] }
    ensures some { result ≢ Step.Nothing }
{
    match read_type(&first_four(area)) {
        Ok(()) => Step::Frame,
        Err(fault) => Step::Dropped(Why::Header(fault)),
    }
}

/// The two ends fit together: of each first part of a stream in which all frames wait from the start, the
/// frames delivered are those whose piece ends in it.
pub fn delivery_law()
    ensures { (longest : ℕ) (frames : List (List ℕ)) (idles place : ℕ) →
        longest ≤ most → All (IsClientFrame longest) frames →
        place ≤ length (stream_of (opening frames idles)) →
        delivered longest (take place (stream_of (opening frames idles)))
        ≡ frames_by place (opening frames idles) }
{}
