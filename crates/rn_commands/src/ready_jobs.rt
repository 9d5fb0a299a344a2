//! Runs that are due, with their memory taken.
ghost use Rattle.std.specs.Prelude.{◌≡◌, None, IfOk, IfSome};
ghost use Rattle.rn_model.specs.Good.{Good, IsInLimits};
ghost use Rattle.rn_record.specs.RecordText.{IsFormat};
ghost use Rattle.rn_commands.specs.Jobs.{JobComesTo};
ghost use Rattle.rn_commands.specs.Written.{Tells, IsEndless};

use crate::jobs::{Job, Telling};
use crate::readying::{ReadyRun, ready_run, run_ready};
use crate::telling::{write_recorded, write_tallied};
use rn_items::NoMemory;
use rn_outside::Sink;
use rn_window::Window;
use rn_worker::Gate;
use std::alloc::Global;
use std::marker::Model;
use std::sync::Wait;
use std::thread::Threads;

// How many bytes of a record are written at once. A firing with more is written several times, for
// each piece of it once.
const PIECE: usize = 4_194_304;

/// A run that is due, with the memory that it needs to begin and to write its end.
#[derive(Drop)]
pub struct ReadyJob {
    ready: ReadyRun,
    format: u32,
    telling: Telling,
    window: Window,
}

impl Model for ReadyJob {
    ghost use Rattle.std.specs.Prelude.{◌<◌};
    ghost use Rattle.std.specs.Coded.{codes};
    ghost use Rattle.rn_value.specs.contracts.value.Value as value;
    ghost use Rattle.rn_value.specs.contracts.value.Kind as kind;
    ghost use Rattle.rn_model.specs.contracts.expr.Expr as expr;
    ghost use Rattle.rn_model.specs.contracts.expr.Cond as cond;
    ghost use Rattle.rn_record.specs.RecordText.{IsFormat};
    ghost use Rattle.rn_commands.specs.declared.jobs.Job.{Job};
    ghost use Rattle.rn_commands.specs.link.Readying.{pick_of, setup_of};

    ghost Value = { Job };

    ghost coded = { Prim.hlevel (
      codes,
      value.the_row.coded,
      kind.the_row.coded,
      expr.the_row.coded,
      cond.the_row.coded,
    ) };

    ghost view = { λ r. record {
      system = (setup_of r.ready).system;
      format = r.format;
      options = (setup_of r.ready).options;
      pick = pick_of r.ready;
      telling = r.telling;
    } };

    ghost invariant = { λ r. IsFormat r.format × (0 < r.window.room) };
}

/// Takes the memory for a run that is due: what it needs to begin, to end and to be written.
pub fn ready_job(alloc: Global, job: Job) -> Result<ReadyJob, NoMemory>
    requires good { Good job.system }
    requires limits { IsInLimits job.options }
    requires format { IsFormat job.format }
    ensures { IfOk result (λ ready. ready ≡ job) }
{
    let Job {
        system,
        format,
        options,
        pick,
        telling,
    } = job;
    let window = Window::new(alloc, PIECE)?;
    let ready = ready_run(alloc, system, options, pick)?;
    Ok(ReadyJob {
        ready,
        format,
        telling,
        window,
    })
}

impl ReadyJob {
    /// Does the run, and writes what is reported of it: its record or its tally, in pieces, and the
    /// line of its end. A run for which more memory is refused ends so, and is written as far as it
    /// came. `None` where a line of the record has 2^64 - 1 bytes or more, so that it isn't written.
    /// This may wait, as `run_job`.
    pub fn run_to<R: Threads + Wait + Sync, G: Gate + Sync, O: Sink, E: Sink>(
        self,
        rt: &R,
        alloc: Global,
        gate: &G,
        out: &mut O,
        err: &mut E,
    ) -> Option<u8>
        ensures told { IfSome result (λ status. Tells (JobComesTo self) status
            (record {
              held = O.held out.old;
              faults = O.faults out.old;
              writes = O.writes out.old;
              empty_writes = O.empty_writes out.old;
            })
            (record {
              held = O.held out.new;
              faults = O.faults out.new;
              writes = O.writes out.new;
              empty_writes = O.empty_writes out.new;
            })
            (record {
              held = E.held err.old;
              faults = E.faults err.old;
              writes = E.writes err.old;
              empty_writes = E.empty_writes err.old;
            })
            (record {
              held = E.held err.new;
              faults = E.faults err.new;
              writes = E.writes err.new;
              empty_writes = E.empty_writes err.new;
            })
            err.old err.new) }
        ensures none { result ≡ None → (out.new ≡ out.old) × (err.new ≡ err.old) }
        ensures endless { result ≡ None → IsEndless self }
    {
        let ReadyJob {
            ready,
            format,
            telling,
            mut window,
        } = self;
        let state = run_ready(rt, alloc, ready, gate);
        match telling {
            Telling::Record => write_recorded(state, format, &mut window, out, err),
            Telling::Tally => Some(write_tallied(state, &mut window, out, err)),
        }
    }
}
