//! The send rings before the lines: where the next frame goes, which ring is full, and what a line carries.

ghost use Rattle.std.specs.Prelude.{◌≡◌, ℕ, true, false, ◌+◌, ◌%◌, ◌<◌, ◌≤◌, length, map, min, All, slice_get};
ghost use Rattle.std.specs.Prelude.{Some, None};
ghost use Rattle.std.specs.Global.{Vec, Box};
ghost use Rattle.law_model.specs.Common.{Container, full, Leg, most_lines};
ghost use Rattle.law_walk.specs.Common.{path_on};
ghost use Rattle.walk_engine.specs.walk_parts.Ringed.{Ringed, ring_of};
ghost use Rattle.walk_engine.specs.walk_core.Carry.{carry_cause, CanCarry, HasReceiveRoom, IsCarriedAt, IsKnownOn};
ghost use Rattle.walk_engine.specs.walk_core.Carry.{IsSentOn};
ghost use Rattle.walk_engine.specs.walk_core.WayParts.{line_counts, sent_frames, HasSent, HasLine as HasLineOn};

use crate::walk_core::open_way::SENDS;
use crate::walk_parts::WalkLine;
use law_model::StallCause;
use member_cells::HeldContainer;

/// The place of the next frame. It gets the containers of the frame before where each line has carried that,
/// since these lie nearest in the caches of the processor.
pub(super) fn next_place(
    sent: &mut Vec<Vec<Box<HeldContainer>>>,
    lines: &[WalkLine],
    ticks: u32,
) -> usize
    requires places { length sent.old.items ≡ 32 }
    ensures place { result ≡ ticks % 32 }
    ensures places { length sent.new.items ≡ 32 }
    ensures has { (leg : Leg) → length lines.now ≡ leg.config.lines →
        HasSent leg ticks (map line_counts lines.now) (sent_frames sent.old) →
        HasSent leg ticks (map line_counts lines.now) (sent_frames sent.new) }
{
    let place = ticks as usize % SENDS;
    if are_carried(lines, ticks) {
        sent.swap(place, (place + SENDS - 1) % SENDS);
    }
    place
}

/// Whether each line has carried so many containers.
fn are_carried(lines: &[WalkLine], ticks: u32) -> bool
    ensures { result ≡ true → (m : ℕ) (line : Ringed) → slice_get lines.now m ≡ Some line →
        ticks ≤ line.carried }
{
    for m in 0..lines.len() {
        if lines[m].carried() < ticks {
            return false;
        }
    }
    true
}

/// The first line whose send ring holds as many containers as it may.
pub(super) fn first_full(lines: &[WalkLine], total: u32, ticks: u32) -> Option<u8>
    requires few { length lines.now ≤ most_lines }
    requires made { All (λ (line : Ringed). min line.carried total ≤ ticks) lines.now }
    ensures { result ≡ full total ticks 0 (map line_counts lines.now) }
{
    for (m, line) in lines.iter().enumerate() {
        if (ticks - line.carried().min(total)) as usize >= SENDS {
            return Some(m as u8);
        }
    }
    None
}

/// Whether a line waits for a container.
fn is_dry(own: &WalkLine, ticks: u32) -> bool
    ensures dry { result ≡ true →
        (own.now.core.pushed < own.now.core.total) × (ticks ≤ own.now.carried) }
    ensures wet { result ≡ false →
        own.now.core.pushed < own.now.core.total → own.now.carried < ticks }
{
    !own.core().all_pushed() && own.carried() >= ticks
}

/// Why a line carries nothing.
pub(super) fn carry_stall(own: &WalkLine, line: u8, ticks: u32) -> Option<StallCause>
    ensures cause { (leg : Leg) → HasLineOn leg line own.now → HasReceiveRoom leg line own.now →
        result ≡ carry_cause leg.config.ticks leg.config.ring ticks line
        (path_on leg line) (line_counts own.now) }
    ensures can { result ≡ None → CanCarry own.now ticks }
{
    if own.core().ended() {
        Some(StallCause::Done)
    } else if is_dry(own, ticks) {
        Some(StallCause::Empty { line })
    } else if own.is_full() {
        Some(StallCause::RxFull { line })
    } else {
        None
    }
}

/// Makes a carry of line `m`. It takes the box of the container that it carries, and leaves another one.
pub(super) fn carry_on(own: &mut WalkLine, m: usize, sent: &mut Vec<Vec<Box<HeldContainer>>>)
    requires runs { own.old.core.flushed ≤ own.old.core.delay }
    requires room { own.old.given < own.old.popped + ring_of own.old }
    requires places { length sent.old.items ≡ 32 }
    requires lines { (k : ℕ) (frame : Vec (Box Container)) →
        slice_get sent.old.items k ≡ Some frame → m < length frame.items }
    ensures has { (leg : Leg) → HasLineOn leg m own.old →
        IsSentOn leg m own.old.carried sent.old.items → IsKnownOn leg m own.old →
        HasLineOn leg m own.new }
    ensures windows { (leg : Leg) → HasLineOn leg m own.old →
        own.new.core.windows ≡ own.old.core.windows }
    ensures carried { own.new.carried ≡ own.old.carried + 1 }
    ensures popped { own.new.popped ≡ own.old.popped }
    ensures sent { IsCarriedAt (own.old.carried % 32) m
        (sent_frames sent.old) (sent_frames sent.new) }
{
    if own.core().all_pushed() {
        own.flush();
    } else {
        let slot = own.carried() as usize % SENDS;
        own.push(&mut sent[slot][m]);
    }
}
