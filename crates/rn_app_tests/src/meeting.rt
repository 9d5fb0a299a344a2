//! The top call: as many workers take part as its words ask for.
use crate::calling::{sink, status};
use rn_items::NoMemory;
use rn_outside::MemSource;
use rn_worker::Gate;
use std::alloc::Global;
use std::sync::Wait;
use std::sync::atomic::{AtomicU64, Ordering};
use std::test::Fail;
use std::thread;
use std::thread::Threads;

// It fires twice.
const TWO: &[u8] = b"net main { var x: int; place p: int = 1, 2; trans t { in p: x; } }";

// Where so many workers meet: who has seen no entry yet waits until all have called, so that none is added
// before. A wait ends after so many looks at the latest.
#[derive(Drop)]
struct Meeting {
    workers: u64,
    looks: u64,
    called: AtomicU64,
    met: AtomicU64,
}

impl Meeting {
    fn new(workers: u64, looks: u64) -> Meeting {
        Meeting {
            workers,
            looks,
            called: AtomicU64::new(0),
            met: AtomicU64::new(0),
        }
    }

    // Whether just so many called, and each saw that all had.
    fn is_whole(&self) -> bool {
        self.called.load(Ordering::SeqCst) == self.workers
            && self.met.load(Ordering::SeqCst) == self.workers
    }
}

impl Gate for Meeting {
    fn between(&self, _worker: u32, seen: u64) {
        if seen > 0 {
            return;
        }
        self.called.fetch_add(1, Ordering::SeqCst);
        for _ in 0..self.looks {
            if self.called.load(Ordering::SeqCst) >= self.workers {
                self.met.fetch_add(1, Ordering::SeqCst);
                return;
            }
            thread::yield_now();
        }
    }
}

// Whether just so many workers meet in a call, which has status 0.
fn meet_in<R: Threads + Wait + Sync>(
    rt: &R,
    alloc: Global,
    line: &str,
    workers: u64,
    looks: u64,
) -> Result<bool, NoMemory> {
    let gate = Meeting::new(workers, looks);
    let mut input = MemSource::new(TWO.to_vec(alloc)?, Vec::new(alloc));
    let mut out = sink(alloc)?;
    let mut err = sink(alloc)?;
    let status = status(rt, alloc, line, &mut input, &mut out, &mut err, &gate)?;
    Ok(status == 0 && gate.is_whole())
}

// Without an entry each worker calls the gate once, so that as many call as there are workers. Where one is
// waited for that isn't there, they don't meet.
#[test]
fn as_many_workers_as_asked_for(rt: HostRuntime) -> Result<(), Fail> {
    let table: [(&str, u64, u64, bool); 9] = [
        ("run --workers 64", 64, 50_000_000, true),
        ("run --workers=63", 63, 50_000_000, true),
        ("run", 4, 50_000_000, true),
        ("run --seed 1 --workers 5", 5, 50_000_000, true),
        ("gen 3 --workers 64", 64, 50_000_000, true),
        ("gen 3 --workers 2 --seed 7", 2, 50_000_000, true),
        ("gen 3", 4, 50_000_000, true),
        ("run --workers 1", 1, 50_000_000, true),
        ("run --workers 2", 3, 1000, false),
    ];
    for (line, workers, looks, met) in table {
        let found = meet_in(&rt, rt.alloc(), line, workers, looks)?;
        assert!(rt; found == met, "{line}");
    }
    Ok(())
}
