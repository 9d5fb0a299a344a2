//! The command `run` with the first of the bindings that are enabled: the least run of a net text.
ghost use Rattle.std.specs.Prelude.{◌⊎◌};
ghost use Rattle.rn_model.specs.Good.{IsInLimits};
ghost use Rattle.rn_answering.specs.NetTexts.{RefusesNet};
ghost use Rattle.rn_answering.specs.Refusing.{Concludes};
ghost use Rattle.rn_commands.specs.LeastLaws.{LeastTextsAreOne};
ghost use Rattle.rn_commands.specs.LeastRuns.{RunsLeastTo};

use crate::jobs::Pick;
use crate::runs::run_by;
use rn_answering::{Answer, Stopped};
use rn_model::Options;
use rn_worker::Gate;
use std::alloc::Global;
use std::sync::Wait;
use std::thread::Threads;

/// What `run` comes to on this net text, with these options, where each firing is by the first binding
/// that is enabled.
pub fn run_least<R: Threads + Wait + Sync, G: Gate + Sync>(
    rt: &R,
    alloc: Global,
    options: Options,
    bytes: &[u8],
    gate: &G,
) -> Result<Answer, Stopped>
    requires { IsInLimits options }
    ensures { Concludes (λ a. RefusesNet bytes.now a ⊎ RunsLeastTo options bytes.now a) result }
{
    run_by(rt, alloc, options, Pick::Least, bytes, gate)
}

/// Two records of least runs of one net, depth and step limit are the same but for the workers, where
/// neither run ends for want of memory.
pub fn least_run_laws()
    ensures { LeastTextsAreOne }
{}
