//! The command `gen`: a run of the workload text, reported in four lines.
ghost use Rattle.std.specs.Prelude.{◌≡◌, ◌≢◌, ◌≤◌, None, IfOk};
ghost use Rattle.rn_items.specs.Memory.{no_memory};
ghost use Rattle.rn_model.specs.Good.{Good, IsInLimits};
ghost use Rattle.rn_gen.specs.Workload.{workload, most_copies};
ghost use Rattle.rn_answering.specs.NetTexts.{Accepted};
ghost use Rattle.rn_answering.specs.Refusing.{Concludes};
ghost use Rattle.rn_answering.specs.declared.stopped.Stopped.TheVariants.{NoMemory as Memory};
ghost use Rattle.rn_commands.specs.Workloads.{GensTo};
ghost use Rattle.rn_commands.specs.link.Workloads.{IsTalliedBy};

use crate::jobs::{Pick, run_job, workload_job};
use crate::runs::closed_by;
use crate::tallying::tally_of;
use rn_answering::{Answer, Stopped, system_of};
use rn_fire::SimState;
use rn_gen::{gen_text, workload_laws};
use rn_items::{Items, NoMemory};
use rn_model::{Options, System};
use rn_window::fill;
use rn_worker::Gate;
use std::alloc::Global;
use std::sync::Wait;
use std::thread::Threads;

/// What the tally of a state whose log has ended comes to.
pub(crate) fn tallied(alloc: Global, state: SimState) -> Result<Answer, NoMemory>
    requires { state.ended ≢ None }
    ensures { IfOk result (λ a. IsTalliedBy state a) }
{
    let (status, line) = closed_by(alloc, &state)?;
    let tally = tally_of(state);
    let mut text = Vec::new(alloc);
    fill(alloc, &tally, &mut text)?;
    Ok(Answer {
        status,
        text: Items::from_vec(text),
        line,
    })
}

// Memory ran out, where that is why a call stopped.
fn out_of_memory(stopped: Stopped) -> NoMemory
    requires { stopped ≡ Memory no_memory }
{
    match stopped {
        Stopped::NoMemory(no_memory) => no_memory,
        Stopped::Refused(_) | Stopped::ReadFault => unreachable!(),
    }
}

/// The system of the workload text of so many workers, which is never refused.
pub(crate) fn workload_system(alloc: Global, copies: u32) -> Result<System, NoMemory>
    requires copies { (1 ≤ copies) × (copies ≤ most_copies) }
    ensures accepted { IfOk result (λ system. Accepted (workload copies) system) }
    ensures good { IfOk result Good }
{
    workload_laws();
    let text = gen_text(alloc, copies)?;
    match system_of(alloc, text.as_slice()) {
        Ok(system) => Ok(system),
        Err(stopped) => Err(out_of_memory(stopped)),
    }
}

// What a run of the workload comes to for so many workers, with these options, where what fires is
// picked so.
fn run_workload_by<R: Threads + Wait + Sync, G: Gate + Sync>(
    rt: &R,
    alloc: Global,
    copies: u32,
    options: Options,
    pick: Pick,
    gate: &G,
) -> Result<Answer, Stopped>
    requires copies { (1 ≤ copies) × (copies ≤ most_copies) }
    requires limits { IsInLimits options }
    ensures { Concludes (GensTo copies options) result }
{
    let job = workload_job(alloc, copies, options, pick)?;
    Ok(run_job(rt, alloc, job, gate)?)
}

/// What `gen` comes to for so many workers, with these options.
pub fn run_workload<R: Threads + Wait + Sync, G: Gate + Sync>(
    rt: &R,
    alloc: Global,
    copies: u32,
    options: Options,
    gate: &G,
) -> Result<Answer, Stopped>
    requires copies { (1 ≤ copies) × (copies ≤ most_copies) }
    requires limits { IsInLimits options }
    ensures { Concludes (GensTo copies options) result }
{
    run_workload_by(rt, alloc, copies, options, Pick::Any, gate)
}

/// The same with a seed, which changes nothing of what may come.
pub fn run_workload_seeded<R: Threads + Wait + Sync, G: Gate + Sync>(
    rt: &R,
    alloc: Global,
    copies: u32,
    options: Options,
    seed: u32,
    gate: &G,
) -> Result<Answer, Stopped>
    requires copies { (1 ≤ copies) × (copies ≤ most_copies) }
    requires limits { IsInLimits options }
    ensures { Concludes (GensTo copies options) result }
{
    run_workload_by(rt, alloc, copies, options, Pick::Seeded(seed), gate)
}
