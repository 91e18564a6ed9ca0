//! What waits to be told in the packets of the other way.

ghost use Rattle.std.specs.Prelude.{◌≡◌, ◌<◌, [], ◌∷◌, ◌++◌, length, IfOk};

use circular_buffer::HeapCircularBuffer;
use member_rows::lcas_packet::Packet;
use std::alloc::{AllocError, Global};
use std::marker::Model;

/// The return packets of a way that its sink has said and that no packet of the other way has told: no more
/// than the lag. Only its making takes memory.
#[derive(Drop)]
pub(crate) struct SaidRing {
    pub(crate) packets: HeapCircularBuffer<Packet>,
}

impl Model for SaidRing {
    ghost use Rattle.std.specs.Prelude.{◌≤◌, length};
    ghost use Rattle.pair_engine.specs.ToldAndHeard.{Said};

    ghost Value = { Said };

    ghost view = { λ ring. record { packets = ring.packets.items; room = ring.packets.capacity } };

    ghost invariant = { λ ring. length ring.packets.items ≤ ring.packets.capacity };
}

impl SaidRing {
    /// A ring in which nothing waits, with room for some packets.
    pub(crate) fn new(alloc: Global, room: u16) -> Result<SaidRing, AllocError>
        ensures { IfOk result (λ ring. ring ≡ record { packets = []; room = room }) }
    {
        Ok(SaidRing {
            packets: HeapCircularBuffer::with_capacity(alloc, usize::from(room))?,
        })
    }

    /// Takes a return packet that the sink has said.
    pub(crate) fn say(&mut self, packet: Packet)
        requires { length self.old.packets < self.old.room }
        ensures packets { self.new.packets ≡ self.old.packets ++ packet ∷ [] }
        ensures room { self.new.room ≡ self.old.room }
    {
        let _ = self.packets.push_back(packet);
    }
}
