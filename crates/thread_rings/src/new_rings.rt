//! The rings of a group.
ghost use Rattle.std.specs.Prelude.{IfOk};
ghost use Rattle.thread_rings.specs.EndsOfRing.{AreFresh};

use crate::ring_ends::{RingIn, RingOut, make_ring};
use member_cells::{BackCell, Cell, Container};
use std::alloc::{AllocError, Global};

/// The slots of a send ring.
const SEND: usize = 32;

/// The slots of a return ring.
const BACK: usize = 4;

/// The ends of the two rings of a line: one that it takes containers from, and one that it gives cells to.
#[derive(Drop)]
pub struct LineEnds {
    /// Where the source pushes containers.
    pub tx: RingOut<Container>,
    /// Where the line pops them.
    pub tx_out: RingIn<Container>,
    /// Where the line pushes cells.
    pub rx: RingOut<Cell>,
    /// Where the sink pops them.
    pub rx_out: RingIn<Cell>,
}

/// The rings of a line: a send ring of 32 containers, and a receive ring of `ring` cells.
pub fn line_rings(alloc: Global, ring: u16) -> Result<LineEnds, AllocError>
    ensures send { IfOk result (λ ends. AreFresh ends.tx ends.tx_out 32) }
    ensures receive { IfOk result (λ ends. AreFresh ends.rx ends.rx_out ring) }
{
    let (tx, tx_out) = make_ring(alloc, SEND)?;
    let (rx, rx_out) = make_ring(alloc, usize::from(ring))?;
    Ok(LineEnds {
        tx,
        tx_out,
        rx,
        rx_out,
    })
}

/// The return ring of a group, of 4 return cells.
pub fn back_ring(alloc: Global) -> Result<(RingOut<BackCell>, RingIn<BackCell>), AllocError>
    ensures { IfOk result (λ ends. AreFresh ends.0 ends.1 4) }
{
    make_ring(alloc, BACK)
}
