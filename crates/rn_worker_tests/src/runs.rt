//! What threads leave: workers that meet between search and commit, and instances that are dropped
//! during a run.
use crate::nets::run_text;
use rn_model::{Entry, Reason};
use rn_worker::{Finished, MeetGate, NoGate};
use std::test::Fail;

// Two tokens that either worker may take.
const TWO: &[u8] = b"net main { var x: int; place p: int = 1, 2; trans t { in p: x; } }";

// It makes 300 instances of which no token holds one.
const MAKES: &[u8] = b"net main { var x: net; var k: int; place c: int = 0;
  trans t { in c: k; guard k < 300; out c: k + 1; x: new w; } }
net w { place p; }";

// It makes 100 instances that it keeps, and then 100 of which no token holds one.
const KEEPS: &[u8] = b"net main { var x: net; var k: int; place c: int = 0; place held: net;
  trans keep { in c: k; guard k < 100; out c: k + 1; out held: x; x: new w; }
  trans lose { in c: k; guard 100 <= k && k < 200; out c: k + 1; x: new w; } }
net w { place p; }";

// It fires 31 times after short searches, and then 20 times after long ones, of which each looks through
// pairs of 40 tokens.
const SEARCHES: &[u8] = b"net main { var n, x, y: int; place quick: int = 0; place slow: int;
  place p: int = 0, 1, 2, 3, 4, 5, 6, 7, 8, 9, 10, 11, 12, 13, 14, 15, 16, 17, 18, 19,
    20, 21, 22, 23, 24, 25, 26, 27, 28, 29, 30, 31, 32, 33, 34, 35, 36, 37, 38, 39;
  trans go { in quick: n; guard n < 30; out quick: n + 1; }
  trans turn { in quick: 30; out slow: 0; }
  trans look { in slow: n; guard n < 20; out slow: n + 1; test p: x; test p: y; guard x + y == 77; } }";

fn first_worker(finished: &Finished) -> u32 {
    match finished.state.entries().first() {
        Some(Entry::Fire { worker, .. }) => *worker,
        _ => 0,
    }
}

fn is_dead(finished: &Finished) -> bool {
    matches!(
        finished.state.entries().last(),
        Some(Entry::End(Reason::Dead))
    )
}

fn fired(finished: &Finished) -> u64 {
    let mut all: u64 = 0;
    for tally in finished.tallies.as_slice() {
        all = all.saturating_add(tally.fired);
    }
    all
}

fn swept(finished: &Finished) -> u64 {
    let mut all: u64 = 0;
    for tally in finished.tallies.as_slice() {
        all = all.saturating_add(tally.swept);
    }
    all
}

#[test]
fn two_workers_meet(rt: HostRuntime) -> Result<(), Fail> {
    let gate = MeetGate::new(100_000_000);
    let finished = run_text(&rt, rt.alloc(), TWO, 2, 0, &gate)?;
    assert!(rt; gate.met());
    assert!(rt; first_worker(&finished) == 2 && is_dead(&finished));
    assert_eq!(rt; finished.state.length(), 3);
    Ok(())
}

#[test]
fn instances_are_dropped(rt: HostRuntime) -> Result<(), Fail> {
    for (workers, sweep_every) in [(1, 1), (4, 7), (4, 0), (64, 2)] {
        let finished = run_text(&rt, rt.alloc(), MAKES, workers, sweep_every, &NoGate)?;
        let dropped = swept(&finished);
        let kept = finished.state.table().instances()?;
        assert!(rt;
            fired(&finished) == 300 && is_dead(&finished),
            "{workers} workers"
        );
        assert!(rt; kept.len() == 1, "{workers} workers");
        assert!(rt; dropped <= 300, "{workers} workers");
        assert!(rt; (dropped > 0) == (sweep_every > 0), "{workers} workers");
    }
    Ok(())
}

// Where many instances are live, a worker lists more rarely what may be dropped: here first after each
// firing, and in the end after 50, a quarter of the 101 instances and 101 tokens that are live, so after
// its firings 140 and 190. With 64 it does so after 64, 128 and 192. What is lost later isn't dropped
// during the run.
#[test]
fn many_live_instances_are_listed_rarely(rt: HostRuntime) -> Result<(), Fail> {
    for (sweep_every, during) in [(1, 90), (64, 92), (0, 0)] {
        let finished = run_text(&rt, rt.alloc(), KEEPS, 1, sweep_every, &NoGate)?;
        let kept = finished.state.table().instances()?;
        assert_eq!(rt; fired(&finished), 200);
        assert!(rt; kept.len() == 101, "after {sweep_every}");
        assert_eq!(rt; swept(&finished), during);
    }
    Ok(())
}

#[test]
fn workers_that_stood_by_see_the_end(rt: HostRuntime) -> Result<(), Fail> {
    for workers in [1, 2, 3, 5, 16, 64] {
        let finished = run_text(&rt, rt.alloc(), SEARCHES, workers, 0, &NoGate)?;
        assert!(rt;
            fired(&finished) == 51 && is_dead(&finished),
            "{workers} workers"
        );
    }
    Ok(())
}
