//! A decision step, and what the lines send until the next one.

ghost use Rattle.std.specs.Prelude.{◌≡◌, ◌<◌, ◌≤◌, All, IfOk, length, replicate};
ghost use Rattle.law_model.specs.Common.{packet_nibbles, telling, passed_on, most_lines};
ghost use Rattle.terminal_source.specs.source_core.StepOfTerminal.{is_step, table_by, active_by, nibbles_of};
ghost use Rattle.terminal_source.specs.source_core.StepOfTerminal.{nibbles_by, left_by, AreNibbles};

use crate::lcas_source::SourceTable;
use arrayvec::ArrayVec;
use law_model::MOST_LINES;
use member_cells::BackCell;
use member_rows::lcas_packet::Packet;
use std::alloc::{AllocError, Global};

/// The nibbles of a packet.
pub(super) const NIBBLES: usize = 16;

/// Makes the decision step of a frame, where one is made. From this frame on the lines send the packets of
/// the table after the step, which tell what the return packet tells that is there, and those carry payload
/// that the table before it says.
pub(super) fn take_step(
    ticks: u32,
    back: Option<BackCell>,
    told: &mut Option<Packet>,
    table: &mut SourceTable,
    active: &mut ArrayVec<u8, MOST_LINES>,
    nibbles: &mut [[u8; NIBBLES]],
)
    requires few { table.old.steps < 4294967295 }
    requires lines { length nibbles.old ≤ most_lines }
    requires below { AreNibbles nibbles.old }
    ensures table { table.new ≡ table_by (is_step ticks) back table.old }
    ensures active { active.new.items ≡ active_by (is_step ticks) table.old active.old.items }
    ensures nibbles { nibbles.new
        ≡ nibbles_by (is_step ticks) table.new (passed_on told.old) nibbles.old }
    ensures below { AreNibbles nibbles.new }
    ensures told { passed_on told.new ≡ left_by (is_step ticks) (passed_on told.old) }
{
    if ticks % 16 == 8 {
        *active = table.active();
        table.decide(back);
        say_all(table, told.take(), nibbles);
    }
}

/// The nibbles of the packets of all lines since the last decision step.
fn say_all(table: &SourceTable, told: Option<Packet>, nibbles: &mut [[u8; NIBBLES]])
    requires steps { 0 < table.now.steps }
    requires lines { length nibbles.old ≤ most_lines }
    ensures nibbles { nibbles.new ≡ nibbles_of table.now (passed_on told) (length nibbles.old) }
    ensures below { AreNibbles nibbles.new }
{
    for line in 0..nibbles.len() {
        nibbles[line] = said(with_told(table.packet(line as u8), told));
    }
}

/// The packet with the member status and the RS-Ack of a return packet, or with none.
fn with_told(packet: Packet, told: Option<Packet>) -> Packet
    ensures { result ≡ telling (passed_on told) packet }
{
    let (mst, rs_ack) = match told {
        Some(told) => (told.mst, told.rs_ack),
        None => (0, false),
    };
    Packet {
        mst,
        rs_ack,
        ..packet
    }
}

/// The nibbles of a packet.
fn said(packet: Packet) -> [u8; NIBBLES]
    ensures nibbles { result ≡ packet_nibbles packet }
    ensures below { All (λ nibble. nibble < 16) result }
{
    packet.nibbles()
}

/// The nibbles of the lines before the first decision step.
pub(super) fn no_packets(alloc: Global, lines: u8) -> Result<Vec<[u8; NIBBLES]>, AllocError>
    ensures { IfOk result (λ nibbles. nibbles.items ≡ replicate lines (replicate 16 0)) }
{
    let mut nibbles = Vec::with_capacity(alloc, usize::from(lines))?;
    for _ in 0..lines {
        nibbles.push([0; NIBBLES])?;
    }
    Ok(nibbles)
}
