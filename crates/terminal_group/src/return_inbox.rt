//! The return cells that have come to a group and that no decision step has taken.

ghost use Rattle.std.specs.Prelude.{◌≡◌, ◌<◌, ◌≤◌, ◌+◌, ◌↔◌, length, IfOk, IsTrue};
ghost use Rattle.terminal_group.specs.ReturnInbox.{cell_for, is_lost_in, empty_inbox, rest_for, with_come};

use circular_buffer::HeapCircularBuffer;
use member_cells::BackCell;
use std::alloc::{AllocError, Global};
use std::marker::Model;

/// The inbox of the source, with room for one return cell more than the lag.
#[derive(Drop)]
pub struct Inbox {
    /// The return windows.
    lost: Vec<(u32, u32)>,
    pub(crate) cells: HeapCircularBuffer<BackCell>,
    /// How many return cells have come in all.
    come: u32,
}

impl Model for Inbox {
    ghost use Rattle.std.specs.Prelude.{◌≤◌, length};
    ghost use Rattle.terminal_group.specs.ReturnInbox.{Inbox};

    ghost Value = { Inbox };

    ghost view = { λ i. record { lost = i.lost.items; cells = i.cells.items; room = i.cells.capacity; come = i.come } };

    ghost invariant = { λ i. length i.cells.items ≤ i.cells.capacity };
}

impl Inbox {
    /// An inbox to which no return cell has come.
    pub fn new(alloc: Global, lost: &[(u32, u32)], lag: u16) -> Result<Inbox, AllocError>
        ensures { IfOk result (λ inbox. inbox ≡ empty_inbox lost.now lag) }
    {
        Ok(Inbox {
            lost: Vec::from_slice(alloc, lost)?,
            cells: HeapCircularBuffer::with_capacity(alloc, usize::from(lag) + 1)?,
            come: 0,
        })
    }

    /// Whether it has no room for a return cell.
    pub fn is_full(&self) -> bool
        ensures { IsTrue result ↔ (self.now.room ≡ length self.now.cells) }
    {
        self.cells.len() == self.cells.capacity()
    }

    /// Takes a return cell that has come, or its loss where a return window holds it.
    pub fn put(&mut self, cell: BackCell)
        requires room { length self.old.cells < self.old.room }
        requires few { self.old.come < 4294967295 }
        ensures { self.new ≡ with_come self.old cell }
    {
        let cell = if is_lost(&self.lost, self.come) {
            BackCell::Lost
        } else {
            cell
        };
        let _ = self.cells.push_back(cell);
        self.come += 1;
    }

    /// Gives the first return cell, where it is needed.
    pub fn take(&mut self, needed: bool) -> Option<BackCell>
        ensures cell { result ≡ cell_for needed self.old.cells }
        ensures rest { self.new ≡ record self.old { cells = rest_for needed self.old.cells } }
    {
        if needed { self.cells.pop_front() } else { None }
    }
}

/// Whether one of some windows holds return packet `k`.
pub fn is_lost(lost: &[(u32, u32)], k: u32) -> bool
    ensures { result ≡ is_lost_in lost.now k }
{
    for window in lost {
        if window.0 <= k && k < window.1 {
            return true;
        }
    }
    false
}
