//! All workers, side by side, and what isn't live dropped after them.
ghost use Rattle.std.specs.Prelude.{◌≡◌, ◌≢◌, None, IfOk, length};
ghost use Rattle.rn_model.specs.Good.{Good, IsInLimits};
ghost use Rattle.rn_desk.specs.Numbered.{EachAt};
ghost use Rattle.rn_worker.specs.Ends.{AreOfWorkers, IsTallyOf, KeepsJustLive};

use crate::dropping::drop_dead;
use crate::gate::Gate;
use crate::ready::{Ended, get_ready};
use crate::tally::Tallies;
use rn_fire::SimState;
use rn_items::NoMemory;
use rn_model::{Options, System};
use std::alloc::Global;
use std::sync::{Arc, Wait};
use std::thread::Threads;

/// The state that all workers left, without what isn't live then, and what each did.
#[derive(Drop)]
pub struct Finished {
    pub state: SimState,
    pub tallies: Tallies,
}

// Runs a system by its number of workers, with a seed or none, until the log of its run has ended, and
// drops what isn't live then.
fn run_by<R: Threads + Wait + Sync, G: Gate + Sync>(
    rt: &R,
    alloc: Global,
    system: Arc<System>,
    options: Options,
    seed: Option<u32>,
    gate: &G,
) -> Result<Finished, NoMemory>
    requires good { Good system.value }
    requires limits { IsInLimits options }
    ensures setup { IfOk result (λ f.
        f.state.setup ≡ record { system = system.value; options = options }) }
    ensures ended { IfOk result (λ f. f.state.ended ≢ None) }
    ensures count { IfOk result (λ f. length f.tallies ≡ options.workers) }
    ensures tallies { IfOk result (λ f.
        EachAt (IsTallyOf f.state.fired options.sweep_every) f.tallies) }
    ensures workers { IfOk result (λ f. AreOfWorkers options.workers f.state.fired) }
    ensures live { IfOk result (λ f. KeepsJustLive f.state) }
{
    let ready = get_ready(alloc, system, options)?;
    let Ended { mut state, tallies } = ready.run(rt, alloc, seed, gate);
    drop_dead(alloc, &mut state)?;
    Ok(Finished { state, tallies })
}

/// Runs a system by its number of workers until the log of its run has ended, and drops what isn't
/// live then.
pub fn run_workers<R: Threads + Wait + Sync, G: Gate + Sync>(
    rt: &R,
    alloc: Global,
    system: Arc<System>,
    options: Options,
    gate: &G,
) -> Result<Finished, NoMemory>
    requires good { Good system.value }
    requires limits { IsInLimits options }
    ensures setup { IfOk result (λ f.
        f.state.setup ≡ record { system = system.value; options = options }) }
    ensures ended { IfOk result (λ f. f.state.ended ≢ None) }
    ensures count { IfOk result (λ f. length f.tallies ≡ options.workers) }
    ensures tallies { IfOk result (λ f.
        EachAt (IsTallyOf f.state.fired options.sweep_every) f.tallies) }
    ensures workers { IfOk result (λ f. AreOfWorkers options.workers f.state.fired) }
    ensures live { IfOk result (λ f. KeepsJustLive f.state) }
{
    run_by(rt, alloc, system, options, None, gate)
}

/// The same with a seed: where a worker looks beside where it found something last is drawn from
/// random numbers, which begin with the seed and the worker's number. So one worker writes the same
/// run for the same seed, and mostly another for another.
pub fn run_seeded<R: Threads + Wait + Sync, G: Gate + Sync>(
    rt: &R,
    alloc: Global,
    system: Arc<System>,
    options: Options,
    seed: u32,
    gate: &G,
) -> Result<Finished, NoMemory>
    requires good { Good system.value }
    requires limits { IsInLimits options }
    ensures setup { IfOk result (λ f.
        f.state.setup ≡ record { system = system.value; options = options }) }
    ensures ended { IfOk result (λ f. f.state.ended ≢ None) }
    ensures count { IfOk result (λ f. length f.tallies ≡ options.workers) }
    ensures tallies { IfOk result (λ f.
        EachAt (IsTallyOf f.state.fired options.sweep_every) f.tallies) }
    ensures workers { IfOk result (λ f. AreOfWorkers options.workers f.state.fired) }
    ensures live { IfOk result (λ f. KeepsJustLive f.state) }
{
    run_by(rt, alloc, system, options, Some(seed), gate)
}
