//! Bells: a thread that can't go on looks some times whether it was rung for, and then sleeps until it is.
//! They carry no fact: what a thread may rely on is said by flags alone. `bell_law` says of their steps that no ring is
//! lost.

use std::hint;
use std::sync::Wait;
use std::sync::atomic::{AtomicBool, AtomicU64, Ordering};
use std::time::Duration;

/// Nobody has rung since the owner took note.
const QUIET: u64 = 0;

/// Somebody has rung.
const RUNG: u64 = 1;

/// The owner sleeps.
const ASLEEP: u64 = 2;

/// How often the owner looks at its bell before it sleeps.
const LOOKS: u32 = 100;

/// The longest sleep, in milliseconds. A ring ends it sooner; it is there so that a ring that is lost costs no more.
const SLEEP: u64 = 1;

/// The bell of a thread, its owner. Whoever did something that may let the owner go on rings. The owner takes
/// note of all rings, then looks whether it can go on, and only then waits: what came after the note is rung,
/// and so the wait ends. Those behind the owner, which take what it makes, are heard only while it waits for
/// them.
#[derive(Drop)]
pub struct Bell {
    behind: AtomicBool,
    state: AtomicU64,
}

impl Bell {
    /// A bell at which nobody has rung.
    pub const fn new() -> Bell {
        Bell {
            behind: AtomicBool::new(false),
            state: AtomicU64::new(QUIET),
        }
    }

    /// Rings. It costs one look where the owner hasn't yet taken note of the last ring.
    pub fn ring(&self) {
        if self.state.load(Ordering::SeqCst) != RUNG
            && self.state.swap(RUNG, Ordering::SeqCst) == ASLEEP
        {
            self.state.wake_one();
        }
    }

    /// Rings, for one behind the owner: only where the owner waits for those.
    pub(crate) fn ring_from_behind(&self) {
        if self.behind.load(Ordering::SeqCst) {
            self.ring();
        }
    }

    /// Takes note, for the owner, of all rings so far.
    pub fn note(&self) {
        if self.state.load(Ordering::SeqCst) != QUIET {
            self.state.store(QUIET, Ordering::SeqCst);
        }
    }

    /// Waits, for the owner, until somebody before it has rung since it took note, or for a millisecond.
    pub fn wait<R: Wait>(&self, rt: &R) {
        if self.behind.load(Ordering::SeqCst) {
            self.behind.store(false, Ordering::SeqCst);
        }
        self.sleep(rt);
    }

    /// Waits as `wait` does, also for those behind the owner. Where they weren't heard at its last look it
    /// returns at once, so that the owner looks again.
    pub(crate) fn wait_for_behind<R: Wait>(&self, rt: &R) {
        if self.behind.load(Ordering::SeqCst) {
            self.sleep(rt);
        } else {
            self.behind.store(true, Ordering::SeqCst);
        }
    }

    /// Looks some times, and then sleeps, unless somebody has rung.
    fn sleep<R: Wait>(&self, rt: &R) {
        for _ in 0..LOOKS {
            if self.state.load(Ordering::SeqCst) == RUNG {
                return;
            }
            hint::spin_loop();
        }
        let sleeps = self
            .state
            .compare_exchange(QUIET, ASLEEP, Ordering::SeqCst, Ordering::SeqCst);
        if sleeps.is_ok() {
            self.state
                .park_timeout(rt, ASLEEP as u32, Duration::from_millis(SLEEP));
        }
    }
}
