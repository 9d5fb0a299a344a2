//! Least runs: workers that meet, the same run for every number of workers, and a commit that is late.
ghost use Rattle.std.specs.Prelude.{◌≤◌};
ghost use Rattle.rn_model.specs.Limits.{most_workers};

use crate::nets::{options_of, system_of};
use rn_least_workers::run_least;
use rn_model::{Binding, Entry, Reason, same_binding};
use rn_value::Value;
use rn_worker::{Finished, Gate, MeetGate, NoGate};
use std::alloc::Global;
use std::sync::Wait;
use std::test::Fail;
use std::thread::Threads;

// Two tokens that either worker may take.
const TWO: &[u8] = b"net main { var x: int; place p: int = 2, 1; trans t { in p: x; } }";

// Instances that are made, step side by side and end.
const WORK: &[u8] = b"channel go(int); channel done();
net main { var n: int; var k: int; var w: net; place c: int = 9; place busy: net;
  trans make { in c: n; guard n > 0; w: new worker; out c: n - 1; out busy: w; }
  trans step { in busy: w; w:go(k); out busy: w; }
  trans finish { in busy: w; w:done(); } }
net worker { var k: int; place s: int = 0;
  trans go { :go(k); in s: k; guard k < 3; out s: k + 1; }
  trans done { :done(); in s: 3; } }";

// Its third least binding has an undefined firing.
const FAULT: &[u8] = b"net main { var x: int; var y: int; place p: int = 4, 3, 2, 1;
  trans t { in p: x; action y = 6 / (3 - x); } }";

// The least run of a net text by so many workers.
fn run_text<R: Threads + Wait + Sync, G: Gate + Sync>(
    rt: &R,
    alloc: Global,
    text: &[u8],
    workers: u32,
    gate: &G,
) -> Result<Finished, Fail>
    requires { (1 ≤ workers) × (workers ≤ most_workers) }
{
    let system = system_of(alloc, text)?;
    Ok(run_least(rt, alloc, system, options_of(workers, 2), gate)?)
}

// Whether two entries are the same but for the worker.
fn are_alike(a: &Entry, b: &Entry) -> bool {
    match (a, b) {
        (Entry::Fire { binding, .. }, Entry::Fire { binding: other, .. }) => {
            same_binding(binding, other)
        }
        (Entry::End(Reason::Fault(_, binding)), Entry::End(Reason::Fault(_, other))) => {
            same_binding(binding, other)
        }
        (Entry::End(Reason::Dead), Entry::End(Reason::Dead)) => true,
        _ => false,
    }
}

fn runs_are_alike(a: &[Entry], b: &[Entry]) -> bool {
    if a.len() != b.len() {
        return false;
    }
    for i in 0..a.len() {
        if !are_alike(&a[i], &b[i]) {
            return false;
        }
    }
    true
}

// The number that the first variable of a binding's start is bound to.
fn first_number(binding: &Binding) -> i64 {
    match binding.nodes.as_slice().first() {
        Some(node) => match node.values.as_slice().first() {
            Some(Value::Int(n)) => *n,
            _ => 0,
        },
        None => 0,
    }
}

fn begins_with(finished: &Finished, by: u32, number: i64) -> bool {
    match finished.state.entries().first() {
        Some(
            Entry::Fire {
                worker,
                binding,
                ..
            },
        ) => *worker == by && first_number(binding) == number,
        _ => false,
    }
}

#[test]
fn two_workers_meet(rt: HostRuntime) -> Result<(), Fail> {
    let gate = MeetGate::new(100_000_000);
    let finished = run_text(&rt, rt.alloc(), TWO, 2, &gate)?;
    assert!(rt; gate.met());
    assert!(rt; begins_with(&finished, 2, 1));
    assert_eq!(rt; finished.state.length(), 3);
    Ok(())
}

fn check_alike<R: Threads + Wait + Sync>(
    rt: &R,
    alloc: Global,
    text: &[u8],
    length: u64,
) -> Result<bool, Fail> {
    let one = run_text(rt, alloc, text, 1, &NoGate)?;
    for workers in [2, 4, 64] {
        let other = run_text(rt, alloc, text, workers, &NoGate)?;
        if !runs_are_alike(one.state.entries(), other.state.entries()) {
            return Ok(false);
        }
    }
    Ok(one.state.length() == length)
}

#[test]
fn each_number_of_workers_leaves_one_run(rt: HostRuntime) -> Result<(), Fail> {
    for (text, length) in [(TWO, 3), (WORK, 46), (FAULT, 3)] {
        assert!(rt; check_alike(&rt, rt.alloc(), text, length)?);
    }
    Ok(())
}
