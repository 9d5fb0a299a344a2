//! Runs that are due: all is done for them but what needs threads.
ghost use Rattle.std.specs.Prelude.{◌≤◌, IfOk, IfErr};
ghost use Rattle.rn_model.specs.Good.{Good, IsInLimits};
ghost use Rattle.rn_gen.specs.Workload.{workload, most_copies};
ghost use Rattle.rn_record.specs.RecordText.{IsFormat};
ghost use Rattle.rn_answering.specs.NetTexts.{Accepted, AcceptedIn, RefusesNet};
ghost use Rattle.rn_answering.specs.Refusing.{Stops};
ghost use Rattle.rn_commands.specs.Jobs.{IsAskedBy, JobComesTo};

use crate::running::run_system;
use crate::runs::written;
use crate::workload::{tallied, workload_system};
use rn_answering::{Answer, Stopped, net_of};
use rn_items::NoMemory;
use rn_model::{Options, System};
use rn_worker::Gate;
use std::alloc::Global;
use std::sync::Wait;
use std::thread::Threads;

/// Which of the enabled bindings fire in a run.
#[derive(Clone, Copy, Debug, PartialEq, Eq)]
pub enum Pick {
    /// Any.
    Any,
    /// Any, drawn from this seed.
    Seeded(u32),
    /// The first, in the order of bindings.
    Least,
}

/// What is reported of a run.
#[derive(Clone, Copy, Debug, PartialEq, Eq)]
pub enum Telling {
    /// Its record.
    Record,
    /// Four lines: its firings, the instances ever made, those that are live at its end, and the
    /// end.
    Tally,
}

/// A run that is due: its system is accepted. Its record has this format, which is 1 or 2.
#[derive(Debug, Drop)]
pub struct Job {
    pub system: System,
    pub format: u32,
    pub options: Options,
    pub pick: Pick,
    pub telling: Telling,
}

/// The run of a net text, of which a record is due, in the format of the text's notation.
pub fn net_job(alloc: Global, options: Options, pick: Pick, bytes: &[u8]) -> Result<Job, Stopped>
    ensures asked { IfOk result (IsAskedBy options pick Telling.Record) }
    ensures accepted { IfOk result (λ job. AcceptedIn job.format bytes.now job.system) }
    ensures format { IfOk result (λ job. IsFormat job.format) }
    ensures good { IfOk result (λ job. Good job.system) }
    ensures refused { IfErr result (Stops (RefusesNet bytes.now)) }
{
    let net = net_of(alloc, bytes)?;
    Ok(Job {
        system: net.system,
        format: net.notation,
        options,
        pick,
        telling: Telling::Record,
    })
}

/// The run of the workload text of so many workers, of which a tally is due.
pub fn workload_job(
    alloc: Global,
    copies: u32,
    options: Options,
    pick: Pick,
) -> Result<Job, NoMemory>
    requires copies { (1 ≤ copies) × (copies ≤ most_copies) }
    ensures asked { IfOk result (IsAskedBy options pick Telling.Tally) }
    ensures accepted { IfOk result (λ job. Accepted (workload copies) job.system) }
    ensures format { IfOk result (λ job. IsFormat job.format) }
    ensures good { IfOk result (λ job. Good job.system) }
{
    let system = workload_system(alloc, copies)?;
    Ok(Job {
        system,
        format: 1,
        options,
        pick,
        telling: Telling::Tally,
    })
}

/// Does a run that is due, and reports it. This may wait for the threads of its workers; all that
/// comes before it doesn't wait.
pub fn run_job<R: Threads + Wait + Sync, G: Gate + Sync>(
    rt: &R,
    alloc: Global,
    job: Job,
    gate: &G,
) -> Result<Answer, NoMemory>
    requires good { Good job.system }
    requires limits { IsInLimits job.options }
    requires format { IsFormat job.format }
    ensures { IfOk result (JobComesTo job) }
{
    let Job {
        system,
        format,
        options,
        pick,
        telling,
    } = job;
    let state = run_system(rt, alloc, system, options, pick, gate)?;
    match telling {
        Telling::Record => written(alloc, &state, format),
        Telling::Tally => tallied(alloc, state),
    }
}
