//! How many accepted frames are due before the first taken row in which a line carried payload.
ghost use Rattle.std.specs.Prelude.{◌≡◌, ◌&&◌, is_none, length, filter};
ghost use Rattle.law_model.specs.session.Leg.{leg_of};
ghost use Rattle.law_model.specs.session.ValidScript.{IsSound};
ghost use Rattle.law_walk.specs.Walk.{IsWalked};
ghost use Rattle.law_walk.specs.LandedOfLeg.{landed_items};
ghost use Rattle.fate_check.specs.EarlyFrames.{is_before, is_early};

use fate_walks::walk_frames::{FrameCursor, LandedFrame};
use walk_engine::walk_core::Walk;

/// Whether a tick comes before a row; if there is no such row, each does.
fn is_before(row: Option<u32>, due: u32) -> bool
    ensures { result ≡ is_before row due }
{
    match row {
        Some(row) => due < row,
        None => true,
    }
}

/// Whether a frame was accepted, and is due before a row.
fn is_early(frame: &LandedFrame, row: Option<u32>) -> bool
    ensures { result ≡ (is_none frame.now.refusal && is_before row frame.now.due) }
{
    frame.refusal.is_none() && is_before(row, frame.due)
}

/// How many frames were accepted that are due before a row.
pub(crate) fn count_early(walk: &Walk, row: Option<u32>) -> u32
    requires sound { IsSound (leg_of walk.now.script) }
    requires walked { IsWalked (leg_of walk.now.script) walk.now.counts }
    ensures { result ≡ length (filter (is_early (leg_of walk.now.script) row)
        (landed_items (leg_of walk.now.script) walk.now.counts)) }
{
    let mut early = 0;
    let mut cursor = FrameCursor::new(walk);
    while let Some(frame) = cursor.next(walk) {
        if is_early(&frame, row) {
            early += 1;
        }
    }
    early
}
