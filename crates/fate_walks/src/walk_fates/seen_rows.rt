//! What is seen of a walk after each turn: which lines carry payload under the packet that was begun, whether
//! the sink knows them once it has that packet, whether the row that was taken is whole and why not, and what
//! is confirmed after it.
ghost use Rattle.std.specs.Prelude.{◌≡◌, ◌+◌, ◌≤◌, length, OnOk, OnErr};
ghost use Rattle.law_model.specs.Common.{Leg, leg_of, IsValid};
ghost use Rattle.law_model.specs.session.Scenario.{packets_in};
ghost use Rattle.law_walk.specs.Common.{IsWalked};
ghost use Rattle.fate_walks.specs.walk_fates.PacketsAndRuler.{Governs};
ghost use Rattle.fate_walks.specs.walk_fates.Seen.{Sees, SeesPart};

use fate_engine::fate_core::{Packets, Ruler, Segments, SpoiledRuns, row_cause};
use std::alloc::{AllocError, Global};
use terminal_sink::sink_core::ends_packet;
use walk_engine::walk_core::{Walk, is_step};

/// What was seen of the packets and rows of a walk.
#[derive(Drop)]
pub struct SeenRows {
    /// Of the packets whose decision step was made.
    pub packets: Packets,
    /// Of the rows that were taken.
    pub segments: Segments,
    /// Of the same rows.
    pub runs: SpoiledRuns,
}

/// What is known of a walk that was made.
#[derive(Drop)]
pub struct SeenWalk {
    /// What was seen of its packets and rows.
    pub rows: SeenRows,
    /// Where the pieces of its accepted frames lie.
    pub ruler: Ruler,
}

/// Sees whether the sink knows which lines carry payload under a packet, if the packet ends with the row that
/// was taken last.
fn see_known(walk: &Walk, row: u32, packets: &mut Packets) -> Result<(), AllocError>
    requires last { row + 1 ≡ walk.now.counts.rows }
    requires packets { Governs (leg_of walk.now.script) walk.now.counts.ticks packets.old }
    requires known { length packets.old.known ≡ packets_in row }
    ensures packets { OnOk result
        (Governs (leg_of walk.now.script) walk.now.counts.ticks packets.new) }
    ensures known { OnOk result (length packets.new.known ≡ packets_in walk.now.counts.rows) }
    ensures err { OnErr result (packets.new ≡ packets.old) }
{
    if !ends_packet(row) {
        return Ok(());
    }
    packets.push_known(walk.live().way().sink().knows())
}

/// Sees a row, which was taken last.
fn see_row(walk: &Walk, row: u32, seen: &mut SeenRows) -> Result<(), AllocError>
    requires valid { IsValid walk.now.script }
    requires walked { IsWalked (leg_of walk.now.script) walk.now.counts }
    requires last { row + 1 ≡ walk.now.counts.rows }
    requires seen { Sees (leg_of walk.now.script) walk.now.counts.ticks row seen.old }
    ensures ok { OnOk result
        (Sees (leg_of walk.now.script) walk.now.counts.ticks walk.now.counts.rows seen.new) }
    ensures err { OnErr result (SeesPart
        (leg_of walk.now.script) walk.now.counts.ticks walk.now.counts.rows seen.old seen.new) }
{
    let cause = row_cause(&walk.script().config.windows, &seen.packets, row);
    see_known(walk, row, &mut seen.packets)?;
    seen.runs.row(cause)?;
    let end = seen.packets.place(row + 1);
    seen.segments.row(
        cause.is_none(),
        end,
        walk.live().way().sink().first_confirmed(),
    )
}

/// Sees what came of a turn, after so many ticks and rows. Where memory is short the segments are as they
/// were, while packets and runs are as they were or ahead of them by this turn.
pub fn see_since(walk: &Walk, ticks: u32, rows: u32, seen: &mut SeenRows) -> Result<(), AllocError>
    requires valid { IsValid walk.now.script }
    requires walked { IsWalked (leg_of walk.now.script) walk.now.counts }
    requires least { ticks ≤ walk.now.counts.ticks }
    requires most { walk.now.counts.ticks ≤ ticks + 1 }
    requires rows { rows ≤ walk.now.counts.rows }
    requires one { walk.now.counts.rows ≤ rows + 1 }
    requires seen { Sees (leg_of walk.now.script) ticks rows seen.old }
    ensures ok { OnOk result
        (Sees (leg_of walk.now.script) walk.now.counts.ticks walk.now.counts.rows seen.new) }
    ensures err { OnErr result (SeesPart
        (leg_of walk.now.script) walk.now.counts.ticks walk.now.counts.rows seen.old seen.new) }
{
    let totals = walk.totals();
    if is_step(ticks, totals.ticks) {
        seen.packets.push(walk.live().way().table().active())?;
    }
    if totals.taken == rows {
        return Ok(());
    }
    see_row(walk, rows, seen)
}

/// Before the first turn.
pub fn nothing_seen(alloc: Global, size: u16) -> SeenRows
    ensures { (leg : Leg) → leg.config.size ≡ size → Sees leg 0 0 result }
{
    SeenRows {
        packets: Packets::new(alloc, size),
        segments: Segments::new(alloc),
        runs: SpoiledRuns::new(alloc),
    }
}
