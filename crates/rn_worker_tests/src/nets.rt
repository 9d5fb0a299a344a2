//! Runs of net texts by several workers.
ghost use Rattle.std.specs.Prelude.{◌≤◌, IfOk};
ghost use Rattle.rn_model.specs.Good.{Good, IsInLimits};
ghost use Rattle.rn_model.specs.Limits.{greatest_sweep, most_workers};

use rn_check::check_system;
use rn_model::{Options, System};
use rn_net::read_system;
use rn_worker::{Finished, Gate, NoGate, run_seeded, run_workers};
use std::alloc::Global;
use std::sync::{Arc, Wait};
use std::test::Fail;
use std::thread::Threads;

/// The system of a net text.
pub(crate) fn system_of(alloc: Global, text: &[u8]) -> Result<Arc<System>, Fail>
    ensures { IfOk result (λ system. Good system.value) }
{
    let plain = read_system(alloc, text)?;
    let system = check_system(alloc, plain)?;
    Ok(Arc::new(alloc, system)?)
}

/// So many workers, each of which drops instances after so many firings of its own.
pub(crate) fn options_of(workers: u32, sweep_every: u32) -> Options
    requires workers { (1 ≤ workers) × (workers ≤ most_workers) }
    requires sweep { sweep_every ≤ greatest_sweep }
    ensures { IsInLimits result }
{
    Options {
        workers,
        steps: 1000,
        depth: 4,
        sweep_every,
    }
}

/// A net text, run by so many workers. Each drops instances after so many firings of its own.
pub(crate) fn run_text<R: Threads + Wait + Sync, G: Gate + Sync>(
    rt: &R,
    alloc: Global,
    text: &[u8],
    workers: u32,
    sweep_every: u32,
    gate: &G,
) -> Result<Finished, Fail>
    requires workers { (1 ≤ workers) × (workers ≤ most_workers) }
    requires sweep { sweep_every ≤ greatest_sweep }
{
    let system = system_of(alloc, text)?;
    Ok(run_workers(rt, alloc, system, options_of(workers, sweep_every), gate)?)
}

/// A net text, run by so many workers with a seed.
pub(crate) fn run_text_seeded<R: Threads + Wait + Sync>(
    rt: &R,
    alloc: Global,
    text: &[u8],
    workers: u32,
    seed: u32,
) -> Result<Finished, Fail>
    requires { (1 ≤ workers) × (workers ≤ most_workers) }
{
    let system = system_of(alloc, text)?;
    Ok(run_seeded(rt, alloc, system, options_of(workers, 0), seed, &NoGate)?)
}
