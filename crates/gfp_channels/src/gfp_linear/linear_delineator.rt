//! The receiver of a stream that channels share. No header is corrected.

ghost use Rattle.std.specs.Prelude.{◌≡◌, ℕ, ◌≤◌, ◌↔◌, Bool, true, false, List, [], ◌∷◌, ◌++◌, length, map, take};
ghost use Rattle.std.specs.Prelude.{drop, IfOk, IfSome, IsSome, IsTrue, Some};
ghost use Rattle.law_model.specs.Common.{longest_frame};
ghost use Rattle.gfp_delineate.specs.ReceivedAreas.{ends_told};
ghost use Rattle.gfp_model.specs.linear_model.ChannelArea.{linear_type_fault, by_size, by_type, linear_outcomes};
ghost use Rattle.gfp_channels.specs.gfp_linear.Delineator.{IsFrame, StandsIn, frame_of, outcomes_told, told_linear};
ghost use Rattle.gfp_channels.specs.gfp_linear.Delineator.{linear_of_end};

use gfp_delineate::{AreaReceiver, AreaStep, AreaWhy, first_four};
use gfp_headers::{read_cid, read_type_linear};
use gfp_model::linear_model::LinearWhy;
use law_model::LONGEST_FRAME;
use std::alloc::{AllocError, Global};
use std::marker::Model;

/// The most octets of an area that is kept: a type header, an extension header and a frame.
const LONGEST_AREA: u16 = LONGEST_FRAME as u16 + 8;

/// What an octet completes: nothing, a frame that is delivered, or a client frame that is not.
#[derive(Clone, Copy, Debug, PartialEq, Eq)]
pub enum LinearStep {
    /// Nothing.
    Nothing,
    /// A frame that is delivered, which the receiver holds.
    Frame {
        /// The number of its channel.
        cid: u8,
    },
    /// A client frame that is not delivered, for this cause.
    Dropped(LinearWhy),
}

impl LinearStep {
    fn is_frame(self) -> bool
        ensures { IsTrue result ↔ IsFrame self }
    {
        matches!(self, LinearStep::Frame { .. })
    }
}

/// Finds the frames in a stream that channels share.
#[derive(Drop)]
pub struct LinearDelineator {
    receiver: AreaReceiver,
    /// Whether the last `byte` or `feed` completed the frame in the area that the receiver holds.
    holds: bool,
}

impl Model for LinearDelineator {
    ghost use Rattle.gfp_channels.specs.gfp_linear.Delineator.{LinearReceiver};

    ghost Value = { LinearReceiver };

    ghost view = { λ s. record { progress = s.receiver; holds = s.holds } };
}

impl LinearDelineator {
    /// A receiver of a stream of which nothing has come. It has room for one frame of 9,600 octets.
    pub fn new(alloc: Global) -> Result<LinearDelineator, AllocError>
        ensures { IfOk result (λ delineator. StandsIn delineator true []) }
    {
        Ok(LinearDelineator {
            receiver: AreaReceiver::new(alloc, LONGEST_AREA, false)?,
            holds: false,
        })
    }

    /// Takes the next octet. `Frame` and `Dropped` come at the last octet of the area of a client frame.
    pub fn byte(&mut self, o: u8) -> LinearStep
        ensures stands { (first : Bool) (octets : List ℕ) → StandsIn self.old first octets →
            StandsIn self.new first (octets ++ o ∷ []) }
        ensures outcome { (first : Bool) (octets : List ℕ) → StandsIn self.old first octets →
            linear_outcomes first (octets ++ o ∷ [])
            ≡ linear_outcomes first octets ++ told_linear self.new result }
        ensures held { IsSome (frame_of self.new) ↔ IsFrame result }
        ensures short { (first : Bool) (octets : List ℕ) → StandsIn self.old first octets →
            IfSome (frame_of self.new) (λ frame. length frame ≤ longest_frame) }
    {
        let end = self.receiver.byte(o);
        let step = step_of(end, self.receiver.area());
        self.holds = step.is_frame();
        step
    }

    /// The frame that the last `byte` or `feed` completed.
    pub fn frame(&self) -> &[u8]
        requires { IsSome (frame_of self.now) }
        ensures { frame_of self.now ≡ Some result.now }
    {
        &self.receiver.area()[8..]
    }

    /// A break of the stream: the octets that come belong to a new segment. A frame that is held stays.
    pub fn broken(&mut self)
        ensures stands { (first : Bool) (octets : List ℕ) → StandsIn self.old first octets →
            StandsIn self.new false [] }
        ensures held { frame_of self.new ≡ frame_of self.old }
    {
        self.receiver.broken();
    }
}

/// What an octet completes, by how the area ended.
fn step_of(end: AreaStep, area: &[u8]) -> LinearStep
    requires least { end ≡ AreaStep.Area → 4 ≤ length area.now }
    ensures outcome { outcomes_told (Some (drop 8 area.now)) result
        ≡ map linear_of_end (ends_told area.now end) }
    ensures frame { IsFrame result → end ≡ AreaStep.Area }
    ensures room { IsFrame result → 8 ≤ length area.now }
{
    match end {
        AreaStep::Nothing => LinearStep::Nothing,
        AreaStep::Area => whole_step(area),
        AreaStep::Dropped(AreaWhy::Unsettled) => LinearStep::Dropped(LinearWhy::Unsettled),
        AreaStep::Dropped(AreaWhy::TooLong { pli }) => LinearStep::Dropped(LinearWhy::TooLong {
            pli,
        }),
    }
}

/// What comes of a whole area.
fn whole_step(area: &[u8]) -> LinearStep
    requires { 4 ≤ length area.now }
    ensures outcome { outcomes_told (Some (drop 8 area.now)) result
        ≡ by_type (linear_type_fault (take 4 area.now)) area.now ∷ [] }
    ensures room { IsFrame result → 8 ≤ length area.now }
{
    match read_type_linear(&first_four(area)) {
        Ok(()) => sized_step(area),
        Err(fault) => LinearStep::Dropped(LinearWhy::Header(fault)),
    }
}

/// What comes of a whole area whose type header is right.
fn sized_step(area: &[u8]) -> LinearStep
    ensures outcome { outcomes_told (Some (drop 8 area.now)) result ≡ by_size area.now ∷ [] }
    ensures room { IsFrame result → 8 ≤ length area.now }
{
    if area.len() < 8 {
        return LinearStep::Dropped(LinearWhy::Short {
            pli: area.len() as u16,
        });
    }
    match read_cid(&first_four(&area[4..])) {
        Ok(cid) => LinearStep::Frame { cid },
        Err(fault) => LinearStep::Dropped(LinearWhy::Extension(fault)),
    }
}
