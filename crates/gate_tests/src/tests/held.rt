//! The one hook of checks with which the tests run the gate.
use go_outside::gate::Gate;
use std::sync::atomic::{AtomicU64, Ordering};
use std::thread;

/// Holds the first check that enters until so many have entered, itself among them, for so many turns at most.
#[derive(Drop)]
pub struct Held {
    wanted: u64,
    turns: u64,
    /// How many entered.
    pub entered: AtomicU64,
    /// Whether they entered in time: 1 where they did.
    pub met: AtomicU64,
}

impl Gate for Held {
    fn enter(&self, _worker: u32, _package: u32) {
        if self.entered.fetch_add(1, Ordering::SeqCst) > 0 {
            return;
        }
        for _ in 0..self.turns {
            if self.entered.load(Ordering::SeqCst) >= self.wanted {
                self.met.store(1, Ordering::SeqCst);
                return;
            }
            thread::yield_now();
        }
    }
}

/// Holds the first check until so many have entered, and none where that is one.
pub fn held_until(wanted: u64) -> Held {
    Held {
        wanted,
        turns: 10_000_000,
        entered: AtomicU64::new(0),
        met: AtomicU64::new(0),
    }
}
