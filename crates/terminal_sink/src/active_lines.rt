//! The lines that carry payload, by the packets that are read.

ghost use Rattle.std.specs.Prelude.{◌≡◌, ◌+◌, ◌≤◌, ◌++◌, length};
ghost use Rattle.law_model.specs.Common.{leader, is_carrying, has, lines_at, active_of, most_lines};
ghost use Rattle.member_rows.specs.vcat_interleave.MemberPayloads.{AreLines};
ghost use Rattle.terminal_sink.specs.active_lines.CarryingLines.{carries, carrying, act_of};

use crate::line_list::LineList;
use law_model::Packet;
use member_cells::Ctrl;

/// How many sequence numbers there are.
const NUMBERS: u16 = 256;

/// Whether the line of a packet carries payload.
fn carries(packet: &Option<Packet>) -> bool
    ensures { result ≡ carries packet.now }
{
    match packet {
        Some(packet) => is_carrying(packet.ctrl),
        None => false,
    }
}

/// Whether a line with this control word carries payload.
fn is_carrying(ctrl: Ctrl) -> bool
    ensures { result ≡ is_carrying ctrl }
{
    matches!(ctrl, Ctrl::Fixed | Ctrl::Norm | Ctrl::Eos)
}

/// Whether the line of a packet carries payload and has this sequence number.
fn has(packet: &Option<Packet>, sq: u8) -> bool
    ensures { result ≡ has is_carrying sq packet.now }
{
    match packet {
        Some(packet) => is_carrying(packet.ctrl) && packet.sq == sq,
        None => false,
    }
}

/// How many lines carry payload.
fn carrying(packets: &[Option<Packet>]) -> usize
    ensures { result ≡ carrying packets.now }
{
    let mut count = 0;
    for packet in packets {
        if carries(packet) {
            count += 1;
        }
    }
    count
}

/// Adds the lines that carry payload and have a sequence number.
fn push_lines(sq: u8, packets: &[Option<Packet>], active: &mut LineList)
    requires few { length packets.now ≤ most_lines }
    requires room { length active.old + length (lines_at sq 0 packets.now) ≤ most_lines }
    ensures { active.new ≡ active.old ++ lines_at sq 0 packets.now }
{
    for (line, packet) in packets.iter().enumerate() {
        if has(packet, sq) {
            active.push(line as u8);
        }
    }
}

/// The lines that carry payload, in the order of their sequence numbers. Once all are found, no further
/// number is tried.
pub(crate) fn find_active(packets: &[Option<Packet>]) -> LineList
    requires few { length packets.now ≤ most_lines }
    ensures active { result ≡ active_of packets.now }
    ensures lines { AreLines (length packets.now) result }
{
    let count = carrying(packets);
    let mut active = LineList::new();
    for sq in 0..NUMBERS {
        if active.len() == count {
            return active;
        }
        push_lines(sq as u8, packets, &mut active);
    }
    active
}

/// The number of active members that the leader of a row of packets says.
pub(crate) fn leading_act(packets: &[Option<Packet>]) -> Option<u8>
    ensures { result ≡ act_of (leader packets.now) }
{
    for packet in packets {
        if let Some(packet) = packet {
            return Some(packet.act);
        }
    }
    None
}
