//! A gate that can hold the workers of a session up until all of them are under way, and the sink until the
//! others have moved.

use std::sync::atomic::{AtomicBool, AtomicU8, Ordering};
use std::thread;
use thread_rings::{Gate, Who};

/// Where each one may have to wait at its first pass until all have come, and the sink then until all others
/// have moved, each time for at most 1,000,000 turns. The sink is the calling thread's: while that waits,
/// whoever moves is on another thread.
#[derive(Drop)]
pub struct Door {
    /// Whether anyone waits.
    meets: bool,
    /// Who has come, a bit for each.
    came: AtomicU8,
    /// Who has moved.
    went: AtomicU8,
    /// One has waited in vain.
    missed: AtomicBool,
}

impl Door {
    /// Nobody has come.
    pub fn new(meets: bool) -> Door {
        Door {
            meets,
            came: AtomicU8::new(0),
            went: AtomicU8::new(0),
            missed: AtomicBool::new(false),
        }
    }

    /// Whether one has waited in vain.
    pub fn missed(&self) -> bool {
        self.missed.load(Ordering::SeqCst)
    }

    /// Waits until all of these bits are there.
    fn wait(&self, bits: &AtomicU8, all: u8) {
        for _turn in 0..1_000_000u32 {
            if bits.load(Ordering::SeqCst) & all == all {
                return;
            }
            thread::yield_now();
        }
        self.missed.store(true, Ordering::SeqCst);
    }
}

/// The bit of one who passes.
fn bit_of(who: Who) -> u8 {
    match who {
        Who::Client => 1,
        Who::Operator => 2,
        Who::Source => 4,
        Who::Line(0) => 8,
        Who::Line(_) => 16,
        Who::Sink => 32,
    }
}

impl Gate for Door {
    fn pass(&self, who: Who) {
        let bit = bit_of(who);
        if self.meets && self.came.fetch_or(bit, Ordering::SeqCst) & bit == 0 {
            self.wait(&self.came, 63);
            if bit == 32 {
                self.wait(&self.went, 31);
            }
        }
    }

    fn moved(&self, who: Who) {
        self.went.fetch_or(bit_of(who), Ordering::SeqCst);
    }
}
