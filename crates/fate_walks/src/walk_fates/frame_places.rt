//! Where the pieces of a walk's accepted frames lie, which is known once the walk was made: by when they
//! landed, and by how far the stream was made in each tick.
ghost use Rattle.std.specs.Prelude.{◌≡◌, ℕ, ◌+◌, ◌^◌, ◌≤◌, ◌<◌, IfOk, IfSome, IfNone};
ghost use Rattle.law_model.specs.Common.{leg_of, IsValid};
ghost use Rattle.law_walk.specs.Common.{IsWalked};
ghost use Rattle.fate_engine.specs.Common.{ruler_of};
ghost use Rattle.fate_walks.specs.walk_frames.ItemCursor.{IsAt, IsNext, frames_before_item};
ghost use Rattle.fate_walks.specs.walk_frames.StreamInTicks.{stream_in, place_in, Between, IsLate};
ghost use Rattle.fate_walks.specs.walk_fates.PacketsAndRuler.{Governs, Rules};

use crate::walk_frames::{FrameCursor, LandedFrame};
use fate_engine::fate_core::{Packets, Ruler};
use std::alloc::{AllocError, Global};
use walk_engine::walk_core::Walk;

/// The stream is made by the ticks after some up to another.
fn reach_ticks(ruler: &mut Ruler, walk: &Walk, packets: &Packets, from: u32, to: u32)
    requires valid { IsValid walk.now.script }
    requires walked { IsWalked (leg_of walk.now.script) walk.now.counts }
    requires packets { Governs (leg_of walk.now.script) walk.now.counts.ticks packets.now }
    requires order { from ≤ to }
    requires to { to ≤ walk.now.counts.ticks }
    ensures { (frames : ℕ) → Between (leg_of walk.now.script) frames from to →
        ruler.old ≡ ruler_of (stream_in (leg_of walk.now.script) from frames) →
        ruler.new ≡ ruler_of (stream_in (leg_of walk.now.script) to frames) }
{
    for t in from..to {
        ruler.reach(place_after(walk, packets, t));
    }
}

/// The place at which a row ends of which the tick was made.
fn place_after(walk: &Walk, packets: &Packets, row: u32) -> u64
    requires valid { IsValid walk.now.script }
    requires walked { IsWalked (leg_of walk.now.script) walk.now.counts }
    requires packets { Governs (leg_of walk.now.script) walk.now.counts.ticks packets.now }
    requires made { row < walk.now.counts.ticks }
    ensures is { result ≡ place_in (leg_of walk.now.script) (row + 1) }
    ensures low { result < 2 ^ 63 }
{
    packets.place(row + 1)
}

/// The next frame that landed before a tick was made.
fn next_before(cursor: &mut FrameCursor, walk: &Walk, ticks: u32) -> Option<LandedFrame>
    requires at { IsAt (leg_of walk.now.script) walk.now.counts cursor.old }
    requires ticks { ticks ≡ walk.now.counts.ticks }
    ensures at { IsAt (leg_of walk.now.script) walk.now.counts cursor.new }
    ensures some { IfSome result (IsNext (leg_of walk.now.script) cursor.old cursor.new) }
    ensures before { IfSome result (λ found. found.due < walk.now.counts.ticks) }
    ensures none { IfNone result (IsLate (leg_of walk.now.script)
        (frames_before_item (leg_of walk.now.script) cursor.old.item) walk.now.counts.ticks) }
{
    match cursor.next(walk) {
        Some(frame) if frame.due < ticks => Some(frame),
        _ => None,
    }
}

/// Where the pieces of the accepted frames of a walk lie that were begun.
pub fn place_frames(alloc: Global, walk: &Walk, packets: &Packets) -> Result<Ruler, AllocError>
    requires valid { IsValid walk.now.script }
    requires walked { IsWalked (leg_of walk.now.script) walk.now.counts }
    requires packets { Governs (leg_of walk.now.script) walk.now.counts.ticks packets.now }
    ensures { IfOk result (Rules (leg_of walk.now.script) walk.now.counts.ticks) }
{
    let totals = walk.totals();
    let mut ruler = Ruler::new(alloc, totals.frames)?;
    let mut cursor = FrameCursor::new(walk);
    let mut ticks = 0;
    while let Some(frame) = next_before(&mut cursor, walk, totals.ticks) {
        reach_ticks(&mut ruler, walk, packets, ticks, frame.due);
        ticks = frame.due;
        if frame.refusal.is_none() {
            ruler.accept(frame.length)?;
        }
    }
    reach_ticks(&mut ruler, walk, packets, ticks, totals.ticks);
    Ok(ruler)
}
