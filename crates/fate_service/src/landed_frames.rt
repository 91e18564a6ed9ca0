//! The client's frames that have landed in a walk, in the columns that the sums need.
ghost use Rattle.std.specs.Prelude.{◌≡◌, ◌+◌, ◌^◌, ◌<◌, ◌≤◌, [], ◌∷◌, ◌++◌, length, OnOk, IfOk, is_none};
ghost use Rattle.std.specs.Prelude.{option_to_list, vec_capacity};
ghost use Rattle.law_model.specs.Common.{leg_of, most_items};
ghost use Rattle.fate_engine.specs.Common.{accepted, does_wait, ended_of};
ghost use Rattle.fate_walks.specs.walk_fates.MadeWalk.{SeesWalk, fates_in, end_by};
ghost use Rattle.fate_service.specs.FrameColumns.{no_frames, with_frame, with_frame_if, carried_by, carried_if};
ghost use Rattle.fate_service.specs.FrameColumns.{AreLanded, TakesFrame};

use fate_engine::fate_core::Fate;
use fate_walks::walk_fates::{SeenWalk, accepted_fate};
use fate_walks::walk_frames::{FrameCursor, LandedFrame};
use std::alloc::{AllocError, Global};
use walk_engine::walk_core::Walk;

/// How many frames, and how many octets they have.
#[derive(Clone, Copy)]
pub struct Tally {
    /// The frames.
    pub frames: u32,
    /// Their octets.
    pub octets: u64,
}

/// A frame that has landed.
#[derive(Clone, Copy)]
pub struct OfferedFrame {
    /// The number of ticks after which it landed.
    pub due: u32,
    /// Its octets.
    pub octets: u16,
    /// It was refused.
    pub refused: bool,
}

/// An accepted frame whose last octet lies in a taken row.
#[derive(Clone, Copy)]
pub struct CarriedFrame {
    /// The number of ticks after which it landed.
    pub due: u32,
    /// The row that decides: the first of its rows that isn't whole where it is cut, and else its first one.
    pub at: u32,
    /// The row of its last octet.
    pub last: u32,
    /// Its octets.
    pub octets: u16,
    /// It was got.
    pub got: bool,
}

/// The frames that have landed, each list in their order.
#[derive(Drop)]
pub struct LandedFrames {
    /// All of them.
    pub offered: Vec<OfferedFrame>,
    /// The number of ticks after which each accepted one landed.
    pub accepted: Vec<u32>,
    /// The accepted ones whose last octet lies in a taken row.
    pub carried: Vec<CarriedFrame>,
    /// The other accepted ones.
    pub waits: Tally,
}

impl Tally {
    /// None.
    pub fn none() -> Tally
        ensures { result ≡ no_frames }
    {
        Tally {
            frames: 0,
            octets: 0,
        }
    }

    /// Counts one more frame.
    pub fn add(&mut self, octets: u16)
        requires frames { self.old.frames < 4294967295 }
        requires octets { self.old.octets < 2 ^ 63 }
        ensures { self.new ≡ with_frame self.old octets }
    {
        self.frames += 1;
        self.octets += u64::from(octets);
    }

    /// Counts one more frame, where it is one of those that are counted.
    pub(crate) fn add_if(&mut self, counts: bool, octets: u16)
        requires frames { self.old.frames < 4294967295 }
        requires octets { self.old.octets < 2 ^ 63 }
        ensures { self.new ≡ with_frame_if counts self.old octets }
    {
        if counts {
            self.add(octets);
        }
    }
}

/// An accepted frame with this fate, where the taken rows carry it.
fn carried_frame(due: u32, octets: u16, fate: Fate) -> Option<CarriedFrame>
    ensures { result ≡ carried_if due octets fate }
{
    match fate {
        Fate::Waits => None,
        Fate::Cut { last, spoiled, .. } => carried(due, octets, spoiled, last, false),
        Fate::Unconfirmed { first, last }
        | Fate::Hunting { first, last }
        | Fate::Unsettled { first, last } => carried(due, octets, first, last, false),
        Fate::Got { first, last } => carried(due, octets, first, last, true),
    }
}

/// A frame that the taken rows carry.
fn carried(due: u32, octets: u16, at: u32, last: u32, got: bool) -> Option<CarriedFrame>
    ensures { result ≡ carried_by due octets at last got }
{
    Some(CarriedFrame {
        due,
        at,
        last,
        octets,
        got,
    })
}

impl LandedFrames {
    /// Before the first frame, with room for so many, of which so many are accepted.
    fn new(alloc: Global, offered: u32, accepted: u32) -> Result<LandedFrames, AllocError>
        ensures landed { IfOk result (AreLanded []) }
        ensures offered { IfOk result (λ landed. offered ≤ vec_capacity landed.offered) }
        ensures accepted { IfOk result (λ landed. accepted ≤ vec_capacity landed.accepted) }
        ensures carried { IfOk result (λ landed. accepted ≤ vec_capacity landed.carried) }
    {
        Ok(LandedFrames {
            offered: Vec::with_capacity(alloc, offered as usize)?,
            accepted: Vec::with_capacity(alloc, accepted as usize)?,
            carried: Vec::with_capacity(alloc, accepted as usize)?,
            waits: Tally::none(),
        })
    }

    /// Takes an accepted frame with this fate.
    fn accept(&mut self, due: u32, octets: u16, fate: Fate) -> Result<(), AllocError>
        requires frames { self.old.waits.frames < 4294967295 }
        requires octets { self.old.waits.octets < 2 ^ 63 }
        ensures offered { self.new.offered.items ≡ self.old.offered.items }
        ensures accepted { OnOk result (self.new.accepted.items ≡ self.old.accepted.items ++ due ∷ []) }
        ensures carried { OnOk result (self.new.carried.items
            ≡ self.old.carried.items ++ option_to_list (carried_if due octets fate)) }
        ensures waits { OnOk result
            (self.new.waits ≡ with_frame_if (does_wait fate) self.old.waits octets) }
    {
        self.accepted.push(due)?;
        self.settle(carried_frame(due, octets, fate), octets)
    }

    /// Takes an accepted frame among those that are carried, or counts it among those that wait.
    fn settle(&mut self, carried: Option<CarriedFrame>, octets: u16) -> Result<(), AllocError>
        requires frames { self.old.waits.frames < 4294967295 }
        requires octets { self.old.waits.octets < 2 ^ 63 }
        ensures offered { self.new.offered.items ≡ self.old.offered.items }
        ensures accepted { self.new.accepted.items ≡ self.old.accepted.items }
        ensures carried { OnOk result (self.new.carried.items
            ≡ self.old.carried.items ++ option_to_list carried) }
        ensures waits { OnOk result
            (self.new.waits ≡ with_frame_if (is_none carried) self.old.waits octets) }
    {
        match carried {
            Some(frame) => self.carried.push(frame)?,
            None => self.waits.add(octets),
        }
        Ok(())
    }
}

/// Takes a frame that has landed.
fn take_frame(
    landed: &mut LandedFrames,
    frame: LandedFrame,
    walk: &Walk,
    seen: &SeenWalk,
) -> Result<(), AllocError>
    requires seen { SeesWalk (leg_of walk.now.script) walk.now.counts seen.now }
    requires few { length landed.old.accepted.items < 4294967295 }
    requires frames { landed.old.waits.frames < 4294967295 }
    requires octets { landed.old.waits.octets < 2 ^ 63 }
    ensures { OnOk result (TakesFrame landed.old landed.new frame.due frame.length
        (end_by (fates_in (leg_of walk.now.script) walk.now.counts.rows) frame.refusal
        (length landed.old.accepted.items))) }
{
    let refused = frame.refusal.is_some();
    landed.offered.push(OfferedFrame {
        due: frame.due,
        octets: frame.length,
        refused,
    })?;
    if refused {
        return Ok(());
    }
    let fate = accepted_fate(landed.accepted.len() as u32, walk, seen);
    landed.accept(frame.due, frame.length, fate)
}

/// The frames of a walk that have landed.
pub(crate) fn land_frames(
    alloc: Global,
    walk: &Walk,
    seen: &SeenWalk,
) -> Result<LandedFrames, AllocError>
    requires { SeesWalk (leg_of walk.now.script) walk.now.counts seen.now }
    ensures landed { IfOk result (AreLanded (ended_of (leg_of walk.now.script) walk.now.counts)) }
    ensures few { IfOk result (λ landed. length landed.offered.items ≤ most_items) }
{
    let mut landed = LandedFrames::new(alloc, walk.landing().landed(true), walk.totals().frames)?;
    let mut cursor = FrameCursor::new(walk);
    while let Some(frame) = cursor.next(walk) {
        take_frame(&mut landed, frame, walk, seen)?;
    }
    Ok(landed)
}
