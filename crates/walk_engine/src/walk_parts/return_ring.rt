//! The return path of a walk: the return ring before the inbox of the source.

ghost use Rattle.std.specs.Prelude.{◌≡◌, ◌+◌, ◌≤◌, ◌↔◌, [], ◌++◌, length, drop, slice_get, option_map, IfOk, IsTrue};
ghost use Rattle.walk_engine.specs.walk_parts.Return.{listed, packet_cell};

use circular_buffer::HeapCircularBuffer;
use member_cells::BackCell;
use member_rows::lcas_packet::Packet;
use std::alloc::{AllocError, Global};
use std::marker::Model;

/// The return packets that a return ring holds.
const RETURNS: usize = 4;

/// The return packets that the sink has said and that haven't come, at most four. Only its making takes memory.
#[derive(Drop)]
pub(crate) struct ReturnRing {
    packets: HeapCircularBuffer<Packet>,
}

impl Model for ReturnRing {
    ghost use Rattle.std.specs.Prelude.{◌≡◌, ◌≤◌, List, length};
    ghost use Rattle.law_model.specs.declared.control_packet.Packet.{Packet};

    ghost Value = { List Packet };

    ghost view = { λ ring. ring.packets.items };

    ghost invariant = { λ ring. (ring.packets.capacity ≡ 4) × (length ring.packets.items ≤ 4) };
}

impl ReturnRing {
    /// A return ring in which nothing waits.
    pub(crate) fn new(alloc: Global) -> Result<ReturnRing, AllocError>
        ensures { IfOk result (λ ring. ring ≡ []) }
    {
        Ok(ReturnRing {
            packets: HeapCircularBuffer::with_capacity(alloc, RETURNS)?,
        })
    }

    /// Whether it holds as many packets as it may.
    pub(crate) fn is_full(&self) -> bool
        ensures { IsTrue result ↔ (length self.now ≡ 4) }
    {
        self.packets.len() == RETURNS
    }

    /// Takes the next return packet of the sink, where it said one.
    pub(crate) fn say(&mut self, packet: Option<Packet>)
        requires { length self.old + length (listed packet) ≤ 4 }
        ensures { self.new ≡ self.old ++ listed packet }
    {
        if let Some(packet) = packet {
            let _ = self.packets.push_back(packet);
        }
    }

    /// Takes the first return packet from it, as the return cell that it comes as, where one is on its way.
    pub(crate) fn pop(&mut self) -> Option<BackCell>
        ensures cell { result ≡ option_map packet_cell (slice_get self.old 0) }
        ensures rest { self.new ≡ drop 1 self.old }
    {
        let Some(packet) = self.packets.pop_front() else {
            return None;
        };
        Some(BackCell::Packet(packet.nibbles()))
    }
}
