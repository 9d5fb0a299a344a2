//! Doing the firings that are told again.
ghost use Rattle.std.specs.Prelude.{◌≡◌, None, Result, Ok};
ghost use Rattle.rn_model.specs.Good.{Good, IsInLimits};
ghost use Rattle.rn_replay.specs.link.Parts.{HasItsWorker, RedoesAll, RedoesEntry};
ghost use Rattle.rn_replay.specs.Replays.{IsWhole};

use crate::fault::ReplayFault;
use crate::firing::redo;
use rn_fire::{SimState, open_state};
use rn_model::{Entry, Options, System};
use std::alloc::Global;
use std::sync::Arc;

/// Does an entry again that is a firing. An end waits.
fn redo_entry(
    alloc: Global,
    state: &mut SimState,
    options: &Options,
    entry: &Entry,
) -> Result<(), ReplayFault>
    requires going { state.old.ended ≡ None }
    requires options { options.now ≡ state.old.setup.options }
    requires worker { HasItsWorker entry.now }
    ensures { RedoesEntry state.old entry.now result state.new }
{
    match entry {
        Entry::Fire {
            worker,
            binding,
            outs,
        } => redo(alloc, state, options, *worker, binding, outs.as_slice()),
        Entry::End(_) => Ok(()),
    }
}

/// The state in which all firings among the entries are done, and the log hasn't ended.
pub(crate) fn redo_all(
    alloc: Global,
    system: Arc<System>,
    options: &Options,
    entries: &[Entry],
) -> Result<SimState, ReplayFault>
    requires good { Good system.value }
    requires limits { IsInLimits options.now }
    requires whole { IsWhole entries.now }
    ensures { RedoesAll system.value options.now entries.now result }
{
    let mut state = open_state(alloc, system, *options)?;
    for entry in entries {
        redo_entry(alloc, &mut state, options, entry)?;
    }
    Ok(state)
}
