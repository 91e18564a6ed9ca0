//! The counts from one tick to another.

ghost use Rattle.std.specs.Prelude.{◌≡◌, ◌+◌, ◌*◌, ◌^◌, ◌<◌, ◌≤◌, length, List, Option};
ghost use Rattle.std.specs.List.Sorted.{IsNonDecreasing, IsNonDecreasingBy};
ghost use Rattle.law_model.specs.Common.{leg_of, Scenario, Told, place_of};
ghost use Rattle.law_walk.specs.Common.{session_rows};
ghost use Rattle.fate_engine.specs.Common.{ArePackets, ended_of as frames_of};
ghost use Rattle.fate_walks.specs.walk_fates.MadeWalk.{SeesWalk};
ghost use Rattle.fate_service.specs.declared.landed_frames.OfferedFrame.{OfferedFrame as OfferedData};
ghost use Rattle.fate_service.specs.declared.landed_frames.CarriedFrame.{CarriedFrame as CarriedData};
ghost use Rattle.fate_service.specs.FrameColumns.{AreLanded};
ghost use Rattle.fate_service.specs.RowStates.{states_of};
ghost use Rattle.fate_service.specs.Stretches.{with_offered, came_of, came_in, delay_of, with_carried};
ghost use Rattle.fate_service.specs.Stretches.{ended_of, ended_in};
ghost use Rattle.fate_service.specs.Stretches.{queue_at, queue_in, higher, peak_in, capacity_in, dark_in, stretch_of};
ghost use Rattle.fate_service.specs.ServiceText.{known_of};

use crate::landed_frames::{CarriedFrame, LandedFrames, OfferedFrame, Tally};
use crate::row_states::{RowState, count_dark};
use fate_engine::fate_core::{Packets, Ruler};
use fate_walks::walk_fates::SeenWalk;
use walk_engine::walk_core::Walk;

/// The greatest number of frames that wait, and the first tick with so many.
#[derive(Clone, Copy)]
pub struct Peak {
    /// The frames.
    pub queue: u32,
    /// The tick.
    pub tick: u32,
}

/// What came from one tick on to below another.
#[derive(Clone, Copy)]
pub struct Stretch {
    /// The frames that landed.
    pub came: Came,
    /// The frames whose last octet lies in these rows.
    pub ended: Ended,
    /// The octets that the rows had room for.
    pub capacity: u64,
    /// The most frames that waited.
    pub peak: Peak,
    /// The rows that are of no use.
    pub dark: u32,
}

/// Frames that landed.
#[derive(Clone, Copy)]
pub struct Came {
    /// All of them.
    pub offered: Tally,
    /// Those that were refused.
    pub refused: Tally,
}

/// Frames that were carried.
#[derive(Clone, Copy)]
pub struct Ended {
    /// Those that were got.
    pub got: Tally,
    /// Those that are lost.
    pub lost: Tally,
    /// The greatest delay of those that were got.
    pub delay: u32,
}

impl Came {
    /// Counts one more frame.
    fn add(&mut self, frame: OfferedFrame)
        requires frames { self.old.offered.frames < 4294967295 }
        requires octets { self.old.offered.octets < 2 ^ 63 }
        requires some { self.old.refused.frames ≤ self.old.offered.frames }
        requires less { self.old.refused.octets ≤ self.old.offered.octets }
        ensures all { self.new ≡ with_offered self.old frame }
        ensures small { frame.octets < 65536 }
    {
        self.offered.add(frame.octets);
        if frame.refused {
            self.refused.add(frame.octets);
        }
    }
}

/// Counts frames that landed.
fn count_came(frames: &[OfferedFrame]) -> Came
    requires { length frames.now < 4294967296 }
    ensures { result ≡ came_of frames.now }
{
    let mut came = Came {
        offered: Tally::none(),
        refused: Tally::none(),
    };
    for frame in frames {
        came.add(*frame);
    }
    came
}

/// The ticks from a frame's due tick to the row of its last octet.
pub(crate) fn delay_of(frame: &CarriedFrame) -> u32
    ensures { result ≡ delay_of frame.now }
{
    frame.last.saturating_sub(frame.due)
}

impl Ended {
    /// Counts one more frame.
    fn add(&mut self, frame: CarriedFrame)
        requires got { self.old.got.frames < 4294967295 }
        requires got_octets { self.old.got.octets < 2 ^ 63 }
        requires lost { self.old.lost.frames < 4294967295 }
        requires lost_octets { self.old.lost.octets < 2 ^ 63 }
        ensures all { self.new ≡ with_carried self.old frame }
        ensures small { frame.octets < 65536 }
    {
        if frame.got {
            self.got.add(frame.octets);
            self.delay = self.delay.max(delay_of(&frame));
        } else {
            self.lost.add(frame.octets);
        }
    }
}

/// Counts frames that were carried.
pub(crate) fn count_ended(frames: &[CarriedFrame]) -> Ended
    requires { length frames.now < 4294967296 }
    ensures { result ≡ ended_of frames.now }
{
    let mut ended = Ended {
        got: Tally::none(),
        lost: Tally::none(),
        delay: 0,
    };
    for frame in frames {
        ended.add(*frame);
    }
    ended
}

/// The frames that landed from one tick on to below another.
fn came_in(offered: &[OfferedFrame], first: u32, end: u32) -> Came
    requires few { length offered.now < 4294967296 }
    requires order { IsNonDecreasingBy (λ (frame : OfferedData). frame.due) offered.now }
    ensures { result ≡ came_in offered.now first end }
{
    let from = offered.partition_point(|frame| frame.due < first);
    let to = offered.partition_point(|frame| frame.due < end);
    count_came(&offered[from.min(to)..to])
}

/// The frames whose last octet lies in a row from one on to below another.
fn ended_in(carried: &[CarriedFrame], first: u32, end: u32) -> Ended
    requires few { length carried.now < 4294967296 }
    requires order { IsNonDecreasingBy (λ (frame : CarriedData). frame.last) carried.now }
    ensures { result ≡ ended_in carried.now first end }
{
    let from = carried.partition_point(|frame| frame.last < first);
    let to = carried.partition_point(|frame| frame.last < end);
    count_ended(&carried[from.min(to)..to])
}

/// How many accepted frames wait in a tick, once those that are due by then have landed.
fn queue_at(accepted: &[u32], ruler: &Ruler, place: u64, tick: u32) -> u32
    requires few { length accepted.now < 4294967296 }
    requires order { IsNonDecreasing accepted.now }
    ensures { result ≡ queue_at accepted.now ruler.now.sent place tick }
{
    let landed = accepted.partition_point(|due| *due <= tick);
    landed.saturating_sub(ruler.begun_before(place)) as u32
}

/// The greater one of a queue and the greatest before it.
fn higher(peak: Peak, queue: u32, tick: u32) -> Peak
    ensures { result ≡ higher peak queue tick }
{
    if peak.queue < queue {
        Peak { queue, tick }
    } else {
        peak
    }
}

/// The greatest queue from one tick on to below another, where so many were made.
fn peak_in(
    accepted: &[u32],
    ruler: &Ruler,
    packets: &Packets,
    made: u32,
    first: u32,
    end: u32,
) -> Peak
    requires few { length accepted.now < 4294967296 }
    requires order { IsNonDecreasing accepted.now }
    requires reach { made ≤ 16 * length packets.now.active + 24 }
    ensures { (scenario : Scenario) (cells : List (Option Told)) →
        ArePackets scenario cells packets.now →
        result ≡ peak_in (queue_in accepted.now ruler.now.sent (place_of scenario cells) made) first end }
{
    let mut peak = Peak {
        queue: 0,
        tick: first,
    };
    for tick in first..end {
        let queue = queue_at(accepted, ruler, packets.place(made.min(tick)), tick);
        peak = higher(peak, queue, tick);
    }
    peak
}

/// The octets that rows had room for, from one row on to below another.
fn capacity_in(packets: &Packets, rows: u32, first: u32, end: u32) -> u64
    requires { rows ≤ 16 * length packets.now.active + 24 }
    ensures { (scenario : Scenario) (cells : List (Option Told)) →
        ArePackets scenario cells packets.now →
        result ≡ capacity_in (place_of scenario cells) rows first end }
{
    packets
        .place(rows.min(end))
        .saturating_sub(packets.place(rows.min(first)))
}

/// The rows of no use from one on to below another.
fn dark_in(states: &[RowState], first: u32, end: u32) -> u32
    requires { length states.now < 4294967296 }
    ensures { result ≡ dark_in states.now first end }
{
    let to = states.len().min(end as usize);
    count_dark(&states[to.min(first as usize)..to])
}

/// What came from one tick on to below another.
pub(crate) fn count_stretch(
    landed: &LandedFrames,
    states: &[RowState],
    walk: &Walk,
    seen: &SeenWalk,
    first: u32,
    end: u32,
) -> Stretch
    requires seen { SeesWalk (leg_of walk.now.script) walk.now.counts seen.now }
    requires landed { AreLanded (frames_of (leg_of walk.now.script) walk.now.counts) landed.now }
    requires states { states.now ≡ states_of (session_rows (leg_of walk.now.script) walk.now.counts.rows) }
    ensures { result ≡ stretch_of (known_of (leg_of walk.now.script) walk.now.counts) first end }
{
    let packets = &seen.rows.packets;
    let totals = walk.totals();
    Stretch {
        came: came_in(&landed.offered, first, end),
        ended: ended_in(&landed.carried, first, end),
        capacity: capacity_in(packets, totals.taken, first, end),
        peak: peak_in(
            &landed.accepted,
            &seen.ruler,
            packets,
            totals.ticks,
            first,
            end,
        ),
        dark: dark_in(states, first, end),
    }
}
