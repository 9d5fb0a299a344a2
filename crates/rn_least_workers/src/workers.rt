//! All workers of a least run, side by side, and what isn't live dropped after them.
ghost use Rattle.std.specs.Prelude.{◌≡◌, ◌≢◌, None, IfOk, length};
ghost use Rattle.rn_model.specs.Good.{Good, IsInLimits};
ghost use Rattle.rn_desk.specs.Numbered.{EachAt};
ghost use Rattle.rn_worker.specs.Ends.{AreOfWorkers, IsTallyOf, KeepsJustLive};
ghost use Rattle.rn_least_state.specs.LeastStates.{HasLeastLog};

use crate::ready::get_least_ready;
use rn_items::NoMemory;
use rn_model::{Options, System};
use rn_worker::{Ended, Finished, Gate, drop_dead};
use std::alloc::Global;
use std::sync::{Arc, Wait};
use std::thread::Threads;

/// Does the least run of a system by its number of workers until its log has ended, and drops what isn't
/// live then. Which worker does a firing is open, and nothing else is but where it ends out of memory.
pub fn run_least<R: Threads + Wait + Sync, G: Gate + Sync>(
    rt: &R,
    alloc: Global,
    system: Arc<System>,
    options: Options,
    gate: &G,
) -> Result<Finished, NoMemory>
    requires good { Good system.value }
    requires limits { IsInLimits options }
    ensures setup { IfOk result (λ f.
        f.state.setup ≡ record { system = system.value; options = options }) }
    ensures ended { IfOk result (λ f. f.state.ended ≢ None) }
    ensures least { IfOk result (λ f. HasLeastLog f.state) }
    ensures count { IfOk result (λ f. length f.tallies ≡ options.workers) }
    ensures tallies { IfOk result (λ f.
        EachAt (IsTallyOf f.state.fired options.sweep_every) f.tallies) }
    ensures workers { IfOk result (λ f. AreOfWorkers options.workers f.state.fired) }
    ensures live { IfOk result (λ f. KeepsJustLive f.state) }
{
    let ready = get_least_ready(alloc, system, options)?;
    let Ended { mut state, tallies } = ready.run(rt, alloc, gate);
    drop_dead(alloc, &mut state)?;
    Ok(Finished { state, tallies })
}
