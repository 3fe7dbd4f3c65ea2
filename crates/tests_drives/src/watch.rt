//! A gate at which calls are counted, and at which vehicles may wait for each other.

use aim_agents::Gate;
use std::sync::atomic::{AtomicU64, Ordering};
use std::thread::yield_now;

// How often a caller looks whether enough calls have come.
const LOOKS: u32 = 100_000_000;

/// Each vehicle waits here until so many calls have come. It waits for a while only, and counts where that was in vain.
#[derive(Drop)]
pub(crate) struct Watch {
    pub(crate) needed: u64,
    /// How many calls have come, and the sum of their steps.
    pub(crate) calls: AtomicU64,
    pub(crate) steps: AtomicU64,
    pub(crate) missed: AtomicU64,
}

impl Watch {
    /// A gate at which no call has come.
    pub(crate) fn new(needed: u64) -> Watch {
        Watch {
            needed,
            calls: AtomicU64::new(0),
            steps: AtomicU64::new(0),
            missed: AtomicU64::new(0),
        }
    }
}

impl Gate for Watch {
    fn before(&self, _vehicle: u32, step: u32) {
        self.steps.fetch_add(step as u64, Ordering::SeqCst);
        self.calls.fetch_add(1, Ordering::SeqCst);
        for _ in 0..LOOKS {
            if self.calls.load(Ordering::SeqCst) >= self.needed {
                return;
            }
            yield_now();
        }
        self.missed.fetch_add(1, Ordering::SeqCst);
    }
}
