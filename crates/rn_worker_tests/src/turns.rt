//! Which binding fires: everyone gets a turn, and a seed draws.
ghost use Rattle.std.specs.Prelude.{◌≤◌};
ghost use Rattle.rn_model.specs.Limits.{most_workers};

use crate::nets::{run_text, run_text_seeded};
use rn_items::NoMemory;
use rn_model::Entry;
use rn_worker::{Finished, NoGate};
use std::alloc::Global;
use std::sync::Wait;
use std::test::Fail;
use std::thread::Threads;

// Its two transitions may fire in turn, or the first alone.
const BUFFER: &[u8] = b"net main { place ready = []; place buffer; place waiting = []; place eaten;
  trans produce { in ready; out ready; out buffer; }
  trans consume { in waiting; in buffer; out waiting; out eaten; } }";

// It loops until it stops.
const LOOPS: &[u8] = b"net main { place p = []; trans loop { in p; out p; } trans stop { in p; } }";

// The transitions with which the firings of a run start, in order.
fn starts(alloc: Global, finished: &Finished) -> Result<Vec<u32>, NoMemory> {
    let mut starts = Vec::new(alloc);
    for entry in finished.state.entries() {
        if let Entry::Fire {
            worker: _,
            binding,
            outs: _,
        } = entry
        {
            if let Some(node) = binding.nodes.as_slice().first() {
                starts.push(node.transition)?;
            }
        }
    }
    Ok(starts)
}

// How often the first net fires, how often it consumes, and how long the log of the second one is.
fn turns_of<R: Threads + Wait + Sync>(
    rt: &R,
    alloc: Global,
    workers: u32,
) -> Result<(usize, usize, u64), Fail>
    requires { (1 ≤ workers) × (workers ≤ most_workers) }
{
    let finished = run_text(rt, alloc, BUFFER, workers, 0, &NoGate)?;
    let starts = starts(alloc, &finished)?;
    let consumed = starts.iter().filter(|t| **t == 1).count();
    let finished = run_text(rt, alloc, LOOPS, workers, 0, &NoGate)?;
    Ok((starts.len(), consumed, finished.state.length()))
}

#[test]
fn everyone_gets_a_turn(rt: HostRuntime) -> Result<(), Fail> {
    let one = turns_of(&rt, rt.alloc(), 1)?;
    let four = turns_of(&rt, rt.alloc(), 4)?;
    for (fired, consumed, length) in [one, four] {
        assert_eq!(rt; fired, 1000);
        assert!(rt; 300 <= consumed && consumed <= 700);
        assert!(rt; length <= 51);
    }
    Ok(())
}

#[test]
fn one_worker_writes_the_same_run_for_a_seed(rt: HostRuntime) -> Result<(), Fail> {
    for seed in [0, 7, 999_999] {
        let finished = run_text_seeded(&rt, rt.alloc(), BUFFER, 1, seed)?;
        let first = starts(rt.alloc(), &finished)?;
        let finished = run_text_seeded(&rt, rt.alloc(), BUFFER, 1, seed)?;
        let second = starts(rt.alloc(), &finished)?;
        assert!(rt; first.as_slice() == second.as_slice(), "seed {seed}");
    }
    Ok(())
}

#[test]
fn seeds_draw_how_often_it_loops(rt: HostRuntime) -> Result<(), Fail> {
    let mut seen = [false; 5];
    for seed in 0..200 {
        let finished = run_text_seeded(&rt, rt.alloc(), LOOPS, 1, seed)?;
        let loops = starts(rt.alloc(), &finished)?.len().saturating_sub(1);
        if loops < 5 {
            seen[loops] = true;
        }
    }
    assert!(rt; seen == [true; 5]);
    Ok(())
}
