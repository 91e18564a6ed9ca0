//! The receiver of a stream of frames with an FCS. In SYNC it corrects core headers with one wrong bit.

ghost use Rattle.std.specs.Prelude.{◌≡◌, ℕ, ◌<◌, ◌≤◌, ◌↔◌, List, [], ◌∷◌, ◌++◌, length, map, take};
ghost use Rattle.std.specs.Prelude.{IfOk, IfSome, IsSome, IsTrue, Some};
ghost use Rattle.std.specs.Int.{to_be_bytes, w32};
ghost use Rattle.law_model.specs.Common.{longest_frame};
ghost use Rattle.gfp_delineate.specs.ReceivedAreas.{ends_told};
ghost use Rattle.gfp_model.specs.fcs_model.Fcs.{fcs_type_fault, by_size, by_type};
ghost use Rattle.gfp_noise.specs.gfp_fcs.Delineator.{FcsReceiverStands, fcs_outcomes, frame_of, info_of};
ghost use Rattle.gfp_noise.specs.gfp_fcs.Delineator.{outcomes_told, told_fcs};
ghost use Rattle.gfp_noise.specs.gfp_fcs.Delineator.{fcs_of_end};

use crate::gfp_fcs::payload_fcs::fcs;
use gfp_delineate::{AreaReceiver, AreaStep, AreaWhy, first_four};
use gfp_headers::read_type_fcs;
use gfp_model::fcs_model::FcsWhy;
use law_model::LONGEST_FRAME;
use std::alloc::{AllocError, Global};
use std::marker::Model;

/// The most octets of an area that is kept: a type header, a frame and its FCS.
const LONGEST_AREA: u16 = LONGEST_FRAME as u16 + 8;

/// What an octet completes: nothing, a frame that is delivered, or a client frame that is not.
#[derive(Clone, Copy, Debug, PartialEq, Eq)]
pub enum FcsStep {
    /// Nothing.
    Nothing,
    /// A frame that is delivered, which the receiver holds.
    Frame,
    /// A client frame that is not delivered, for this cause.
    Dropped(FcsWhy),
}

impl FcsStep {
    fn is_frame(self) -> bool
        ensures { IsTrue result ↔ (self ≡ FcsStep.Frame) }
    {
        matches!(self, FcsStep::Frame)
    }
}

/// Finds the frames with an FCS in a stream that has no break.
#[derive(Drop)]
pub struct FcsDelineator {
    receiver: AreaReceiver,
    /// Whether the last `byte` or `feed` completed the frame in the area that the receiver holds.
    holds: bool,
}

impl Model for FcsDelineator {
    ghost use Rattle.gfp_noise.specs.gfp_fcs.Delineator.{FcsReceiver};

    ghost Value = { FcsReceiver };

    ghost view = { λ s. record { progress = s.receiver; holds = s.holds } };
}

impl FcsDelineator {
    /// A receiver of a stream of which nothing has come. It has room for one frame of 9,600 octets.
    pub fn new(alloc: Global) -> Result<FcsDelineator, AllocError>
        ensures { IfOk result (λ delineator. FcsReceiverStands delineator []) }
    {
        Ok(FcsDelineator {
            receiver: AreaReceiver::new(alloc, LONGEST_AREA, true)?,
            holds: false,
        })
    }

    /// Takes the next octet. `Frame` and `Dropped` come at the last octet of the area of a client frame.
    pub fn byte(&mut self, o: u8) -> FcsStep
        ensures stands { (octets : List ℕ) → FcsReceiverStands self.old octets →
            FcsReceiverStands self.new (octets ++ o ∷ []) }
        ensures outcome { (octets : List ℕ) → FcsReceiverStands self.old octets →
            fcs_outcomes (octets ++ o ∷ []) ≡ fcs_outcomes octets ++ told_fcs self.new result }
        ensures held { IsSome (frame_of self.new) ↔ (result ≡ FcsStep.Frame) }
        ensures short { (octets : List ℕ) → FcsReceiverStands self.old octets →
            IfSome (frame_of self.new) (λ frame. length frame ≤ longest_frame) }
    {
        let end = self.receiver.byte(o);
        let step = step_of(end, self.receiver.area());
        self.holds = step.is_frame();
        step
    }

    /// The frame that the last `byte` or `feed` completed.
    pub fn frame(&self) -> &[u8]
        requires { IsSome (frame_of self.now) }
        ensures { frame_of self.now ≡ Some result.now }
    {
        info(self.receiver.area())
    }
}

/// What an octet completes, by how the area ended.
fn step_of(end: AreaStep, area: &[u8]) -> FcsStep
    requires least { end ≡ AreaStep.Area → 4 ≤ length area.now }
    ensures outcome { outcomes_told (Some (info_of area.now)) result
        ≡ map fcs_of_end (ends_told area.now end) }
    ensures frame { result ≡ FcsStep.Frame → end ≡ AreaStep.Area }
    ensures room { result ≡ FcsStep.Frame → 12 ≤ length area.now }
{
    match end {
        AreaStep::Nothing => FcsStep::Nothing,
        AreaStep::Area => whole_step(area),
        AreaStep::Dropped(AreaWhy::Unsettled) => FcsStep::Dropped(FcsWhy::Unsettled),
        AreaStep::Dropped(AreaWhy::TooLong { pli }) => FcsStep::Dropped(FcsWhy::TooLong { pli }),
    }
}

/// What comes of a whole area.
fn whole_step(area: &[u8]) -> FcsStep
    requires { 4 ≤ length area.now }
    ensures outcome { outcomes_told (Some (info_of area.now)) result
        ≡ by_type (fcs_type_fault (take 4 area.now)) area.now ∷ [] }
    ensures room { result ≡ FcsStep.Frame → 12 ≤ length area.now }
{
    match read_type_fcs(&first_four(area)) {
        Ok(()) => sized_step(area),
        Err(fault) => FcsStep::Dropped(FcsWhy::Header(fault)),
    }
}

/// What comes of a whole area whose type header is right.
fn sized_step(area: &[u8]) -> FcsStep
    ensures outcome { outcomes_told (Some (info_of area.now)) result ≡ by_size area.now ∷ [] }
    ensures room { result ≡ FcsStep.Frame → 12 ≤ length area.now }
{
    if area.len() < 12 {
        return FcsStep::Dropped(FcsWhy::Short {
            pli: area.len() as u16,
        });
    }
    let said = word(&first_four(&area[area.len() - 4..]));
    let found = fcs(info(area));
    if said == found {
        FcsStep::Frame
    } else {
        FcsStep::Dropped(FcsWhy::Fcs { said, found })
    }
}

/// The octets between the type header and the FCS.
fn info(area: &[u8]) -> &[u8]
    requires { 12 ≤ length area.now }
    ensures { result.now ≡ info_of area.now }
{
    &area[4..area.len() - 4]
}

/// Four octets as a number, the first most significant.
fn word(octets: &[u8; 4]) -> u32
    ensures { to_be_bytes w32 result ≡ octets.now }
{
    u32::from_be_bytes(*octets)
}
