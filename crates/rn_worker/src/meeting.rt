//! A gate for tests, at which two workers meet.
use crate::gate::Gate;
use std::sync::atomic::{AtomicU64, Ordering};
use std::thread;

/// Where workers 1 and 2 meet.
///
/// In their first calls each waits until the other has called. Worker 1 then waits until worker 2
/// has called with an entry seen. Each wait ends after so many looks at the latest.
#[derive(Drop)]
pub struct MeetGate {
    looks: u64,
    first: AtomicU64,
    second: AtomicU64,
    later: AtomicU64,
    waits: AtomicU64,
}

impl MeetGate {
    /// A gate whose waits end after so many looks.
    pub fn new(looks: u64) -> MeetGate {
        MeetGate {
            looks,
            first: AtomicU64::new(0),
            second: AtomicU64::new(0),
            later: AtomicU64::new(0),
            waits: AtomicU64::new(0),
        }
    }

    /// Whether all three waits ended by what they waited for.
    pub fn met(&self) -> bool {
        self.waits.load(Ordering::SeqCst) == 3
    }

    // Looks at a word until it is set, and counts the wait where that came.
    fn wait_for(&self, word: &AtomicU64) {
        for _ in 0..self.looks {
            if word.load(Ordering::SeqCst) == 1 {
                self.waits.fetch_add(1, Ordering::SeqCst);
                return;
            }
            thread::yield_now();
        }
    }
}

impl Gate for MeetGate {
    fn between(&self, worker: u32, seen: u64) {
        if worker == 2 && seen > 0 {
            self.later.store(1, Ordering::SeqCst);
        }
        if worker == 1 && self.first.swap(1, Ordering::SeqCst) == 0 {
            self.wait_for(&self.second);
            self.wait_for(&self.later);
        }
        if worker == 2 && self.second.swap(1, Ordering::SeqCst) == 0 {
            self.wait_for(&self.first);
        }
    }
}
