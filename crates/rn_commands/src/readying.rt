//! A run whose memory is taken before it begins.
ghost use Rattle.std.specs.Prelude.{◌≡◌, ◌≢◌, None, IfOk, All};
ghost use Rattle.rn_model.specs.Good.{Good, IsInLimits};
ghost use Rattle.rn_least_state.specs.LeastStates.{HasLeastLog};
ghost use Rattle.rn_commands.specs.Runs.{IsOfWorkers};
ghost use Rattle.rn_commands.specs.link.Readying.{pick_of, setup_of};

use crate::jobs::Pick;
use rn_fire::SimState;
use rn_items::NoMemory;
use rn_least_workers::{LeastReady, get_least_ready};
use rn_model::{Options, System};
use rn_worker::{Gate, Ready, get_ready};
use std::alloc::Global;
use std::sync::{Arc, Wait};
use std::thread::Threads;

/// A run for which all memory was taken that its end needs.
#[derive(Drop)]
pub(crate) enum ReadyRun {
    /// Any binding fires that is enabled, drawn from a seed or not.
    Any(Ready, Option<u32>),
    /// The first fires.
    Least(LeastReady),
}

/// Takes the memory for a run.
pub(crate) fn ready_run(
    alloc: Global,
    system: System,
    options: Options,
    pick: Pick,
) -> Result<ReadyRun, NoMemory>
    requires good { Good system }
    requires limits { IsInLimits options }
    ensures setup { IfOk result (λ r.
        setup_of r ≡ record { system = system; options = options }) }
    ensures pick { IfOk result (λ r. pick_of r ≡ pick) }
{
    let system = Arc::new(alloc, system)?;
    match pick {
        Pick::Any => Ok(ReadyRun::Any(get_ready(alloc, system, options)?, None)),
        Pick::Seeded(seed) => Ok(ReadyRun::Any(get_ready(alloc, system, options)?, Some(seed))),
        Pick::Least => Ok(ReadyRun::Least(get_least_ready(alloc, system, options)?)),
    }
}

/// The state in which the workers leave a run, once its log has ended.
pub(crate) fn run_ready<R: Threads + Wait + Sync, G: Gate + Sync>(
    rt: &R,
    alloc: Global,
    ready: ReadyRun,
    gate: &G,
) -> SimState
    ensures setup { result.setup ≡ setup_of ready }
    ensures ended { result.ended ≢ None }
    ensures workers { All (IsOfWorkers (setup_of ready).options.workers) result.fired }
    ensures least { pick_of ready ≡ Pick.Least → HasLeastLog result }
{
    match ready {
        ReadyRun::Any(ready, seed) => ready.run(rt, alloc, seed, gate).state,
        ReadyRun::Least(ready) => ready.run(rt, alloc, gate).state,
    }
}
