//! Running a system by its workers.
ghost use Rattle.std.specs.Prelude.{◌≡◌, ◌≢◌, None, IfOk, All};
ghost use Rattle.rn_model.specs.Good.{Good, IsInLimits};
ghost use Rattle.rn_least_state.specs.LeastStates.{HasLeastLog};
ghost use Rattle.rn_commands.specs.Runs.{IsOfWorkers};

use crate::jobs::Pick;
use rn_fire::SimState;
use rn_items::NoMemory;
use rn_least_workers::run_least;
use rn_model::{Options, System};
use rn_worker::{Finished, Gate, run_seeded, run_workers};
use std::alloc::Global;
use std::sync::{Arc, Wait};
use std::thread::Threads;

/// The state in which the workers leave a run of a system, once its log has ended.
pub(crate) fn run_system<R: Threads + Wait + Sync, G: Gate + Sync>(
    rt: &R,
    alloc: Global,
    system: System,
    options: Options,
    pick: Pick,
    gate: &G,
) -> Result<SimState, NoMemory>
    requires good { Good system }
    requires limits { IsInLimits options }
    ensures setup { IfOk result (λ s.
        s.setup ≡ record { system = system; options = options }) }
    ensures ended { IfOk result (λ s. s.ended ≢ None) }
    ensures workers { IfOk result (λ s. All (IsOfWorkers options.workers) s.fired) }
    ensures least { pick ≡ Pick.Least → IfOk result HasLeastLog }
{
    let system = Arc::new(alloc, system)?;
    match pick {
        Pick::Any => {
            let Finished { state, tallies: _ } = run_workers(rt, alloc, system, options, gate)?;
            Ok(state)
        }
        Pick::Seeded(seed) => {
            let Finished { state, tallies: _ } = run_seeded(
                rt, alloc, system, options, seed, gate,
            )?;
            Ok(state)
        }
        Pick::Least => {
            let Finished { state, tallies: _ } = run_least(rt, alloc, system, options, gate)?;
            Ok(state)
        }
    }
}
