//! The command `run`: a run of a net text.
ghost use Rattle.std.specs.Prelude.{◌≡◌, ◌≢◌, ◌⊎◌, None, IfOk};
ghost use Rattle.rn_model.specs.Good.{IsInLimits};
ghost use Rattle.rn_record.specs.RecordText.{IsFormat};
ghost use Rattle.rn_commands.specs.link.Ends.{IsClosedBy, IsWrittenBy};
ghost use Rattle.rn_answering.specs.NetTexts.{RefusesNet};
ghost use Rattle.rn_answering.specs.Refusing.{Concludes};
ghost use Rattle.rn_commands.specs.LeastRuns.{RunsLeastTo};
ghost use Rattle.rn_commands.specs.Runs.{RunsTo};

use crate::closing::Closing;
use crate::jobs::{Pick, net_job, run_job};
use rn_answering::{Answer, Stopped};
use rn_fire::SimState;
use rn_items::{Items, NoMemory};
use rn_model::Options;
use rn_state_record::write_record;
use rn_window::fill;
use rn_worker::Gate;
use std::alloc::Global;
use std::sync::Wait;
use std::thread::Threads;

/// The status and the line of a run, by the end of its log.
pub(crate) fn closed_by(alloc: Global, state: &SimState) -> Result<(u8, Items<u8>), NoMemory>
    requires { state.now.ended ≢ None }
    ensures { IfOk result (λ r. IsClosedBy state.now r.0 r.1) }
{
    let closing = Closing::of(state);
    let mut line = Vec::new(alloc);
    fill(alloc, &closing, &mut line)?;
    Ok((closing.status(), Items::from_vec(line)))
}

/// What the run of a state whose log has ended comes to, with its record in this format.
pub(crate) fn written(alloc: Global, state: &SimState, format: u32) -> Result<Answer, NoMemory>
    requires ended { state.now.ended ≢ None }
    requires format { IsFormat format }
    ensures { IfOk result (λ a. IsWrittenBy format state.now a) }
{
    let text = write_record(alloc, state, format)?;
    let (status, line) = closed_by(alloc, state)?;
    Ok(Answer {
        status,
        text: Items::from_vec(text),
        line,
    })
}

/// What a run of this net text comes to, with these options, where what fires is picked so.
pub(crate) fn run_by<R: Threads + Wait + Sync, G: Gate + Sync>(
    rt: &R,
    alloc: Global,
    options: Options,
    pick: Pick,
    bytes: &[u8],
    gate: &G,
) -> Result<Answer, Stopped>
    requires { IsInLimits options }
    ensures runs { Concludes (λ a. RefusesNet bytes.now a ⊎ RunsTo options bytes.now a) result }
    ensures least { pick ≡ Pick.Least →
        Concludes (λ a. RefusesNet bytes.now a ⊎ RunsLeastTo options bytes.now a) result }
{
    let job = net_job(alloc, options, pick, bytes)?;
    Ok(run_job(rt, alloc, job, gate)?)
}

/// What `run` comes to on this net text, with these options.
pub fn run<R: Threads + Wait + Sync, G: Gate + Sync>(
    rt: &R,
    alloc: Global,
    options: Options,
    bytes: &[u8],
    gate: &G,
) -> Result<Answer, Stopped>
    requires { IsInLimits options }
    ensures { Concludes (λ a. RefusesNet bytes.now a ⊎ RunsTo options bytes.now a) result }
{
    run_by(rt, alloc, options, Pick::Any, bytes, gate)
}

/// The same with a seed, which changes nothing of what may come.
pub fn run_seeded<R: Threads + Wait + Sync, G: Gate + Sync>(
    rt: &R,
    alloc: Global,
    options: Options,
    seed: u32,
    bytes: &[u8],
    gate: &G,
) -> Result<Answer, Stopped>
    requires { IsInLimits options }
    ensures { Concludes (λ a. RefusesNet bytes.now a ⊎ RunsTo options bytes.now a) result }
{
    run_by(rt, alloc, options, Pick::Seeded(seed), bytes, gate)
}
