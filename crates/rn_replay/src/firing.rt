//! Doing a firing again.
ghost use Rattle.std.specs.Prelude.{◌≡◌, ◌<◌, ◌≤◌, ◌↔◌, suc, length, None, Some, IsTrue};
ghost use Rattle.rn_items.specs.Memory.{no_memory};
ghost use Rattle.rn_binding.specs.Soundness.{IsSound};
ghost use Rattle.rn_model.specs.Good.{Good};
ghost use Rattle.rn_model.specs.Limits.{most_workers};
ghost use Rattle.rn_fire.specs.Commits.{IsEnabledNow};
ghost use Rattle.rn_fire.specs.States.{IsState};
ghost use Rattle.rn_replay.specs.link.Parts.{Candidates, Certified, FiresNow, Redoes};
ghost use Rattle.rn_replay.specs.link.Parts.{fault_of, last_of, outs_of, unfit_of};
ghost use Rattle.rn_replay.specs.declared.firing.Unfit.TheVariants.{NoMemory as Memory};

use crate::fault::ReplayFault;
use rn_arcs::fits;
use rn_binding::{Candidate, NotSound, certify};
use rn_fire::{Commit, SimState};
use rn_items::NoMemory;
use rn_model::{Binding, Entry, Options, System, copy_binding};
use rn_value::{Value, same_all};
use std::alloc::Global;

/// Why a binding isn't enabled in a state.
#[derive(Clone, Copy, Debug, PartialEq, Eq)]
pub(crate) enum Unfit {
    /// It isn't sound.
    Unsound,

    /// The marking doesn't meet it.
    Unmet,

    NoMemory(NoMemory),
}

impl From<NoMemory> for Unfit {
    ghost from_gives = { λ _ e. e ≡ Memory no_memory };

    fn from(no_memory: NoMemory) -> Unfit {
        Unfit::NoMemory(no_memory)
    }
}

/// The number of the next entry.
#[tactic(auto, using(rn_fire::proofs::EntryLemmas::going_count))]
pub(crate) fn next_number(state: &SimState) -> u32
    requires { state.now.ended ≡ None }
    ensures number { result ≡ suc (length state.now.fired) }
    ensures state { IsState state.now }
{
    state.length() as u32 + 1
}

fn unfit_by(lack: NotSound) -> Unfit
    ensures { result ≡ unfit_of lack }
{
    match lack {
        NotSound::B1 => Unfit::Unsound,
        NotSound::B2 => Unfit::Unsound,
        NotSound::B3 => Unfit::Unsound,
        NotSound::NoMemory(no_memory) => Unfit::NoMemory(no_memory),
    }
}

/// A binding as a candidate, where it is sound.
fn certified(
    alloc: Global,
    system: &System,
    depth: u32,
    binding: Binding,
) -> Result<Candidate, Unfit>
    requires { Good system.now }
    ensures { Certified system.now depth binding result }
{
    match certify(alloc, system, depth, binding) {
        Ok(candidate) => Ok(candidate),
        Err(lack) => Err(unfit_by(lack)),
    }
}

/// A binding as a candidate, where it is enabled.
pub(crate) fn candidate_of(
    alloc: Global,
    state: &SimState,
    depth: u32,
    binding: &Binding,
) -> Result<Candidate, Unfit>
    requires state { IsState state.now }
    requires depth { depth ≡ state.now.setup.options.depth }
    ensures { Candidates state.now binding.now result }
{
    let copied = copy_binding(alloc, binding)?;
    let system = state.system();
    let table = state.table();
    let candidate = certified(alloc, system, depth, copied)?;
    let met = fits(alloc, system, table, candidate.binding())?;
    if !met {
        return Err(Unfit::Unmet);
    }
    Ok(candidate)
}

/// Fires a candidate that is enabled, or ends the log with its fault. Returns whether it fired.
pub(crate) fn fire_now(
    alloc: Global,
    state: &mut SimState,
    worker: u32,
    candidate: &Candidate,
) -> Result<bool, NoMemory>
    requires going { state.old.ended ≡ None }
    requires below { length state.old.fired < state.old.setup.options.steps }
    requires worker { (1 ≤ worker) × (worker ≤ most_workers) }
    requires sound { IsSound state.old.setup.system state.old.setup.options.depth candidate.now }
    requires enabled { IsEnabledNow state.old candidate.now }
    ensures { FiresNow state.old worker candidate.now result state.new }
{
    let seen = state.length();
    match state.commit(alloc, worker, candidate, seen) {
        Commit::Fired { step: _ } => Ok(true),
        Commit::Faulted => Ok(false),
        Commit::NoMemory(no_memory) => Err(no_memory),
        Commit::Conflict { seen: _, now: _ } => unreachable!(),
        Commit::Ended => unreachable!(),
    }
}

/// Whether an entry is a firing that printed these values.
fn entry_printed(entry: &Entry, outs: &[Value]) -> bool
    ensures { IsTrue result ↔ (outs_of (Some entry.now) ≡ Some outs.now) }
{
    match entry {
        Entry::Fire {
            worker: _,
            binding: _,
            outs: printed,
        } => same_all(printed.as_slice(), outs),
        Entry::End(_) => false,
    }
}

/// Whether the last entry is.
fn has_printed(entries: &[Entry], outs: &[Value]) -> bool
    ensures { IsTrue result ↔ (outs_of (last_of entries.now) ≡ Some outs.now) }
{
    match entries.last() {
        Some(entry) => entry_printed(entry, outs),
        None => false,
    }
}

fn fault_by(unfit: Unfit, number: u32) -> ReplayFault
    ensures { result ≡ fault_of unfit number }
{
    match unfit {
        Unfit::Unsound => ReplayFault::V1(number),
        Unfit::Unmet => ReplayFault::V2(number),
        Unfit::NoMemory(no_memory) => ReplayFault::NoMemory(no_memory),
    }
}

/// Does a firing again, where it is the next one of a run.
pub(crate) fn redo(
    alloc: Global,
    state: &mut SimState,
    options: &Options,
    worker: u32,
    binding: &Binding,
    outs: &[Value],
) -> Result<(), ReplayFault>
    requires going { state.old.ended ≡ None }
    requires options { options.now ≡ state.old.setup.options }
    requires worker { (1 ≤ worker) × (worker ≤ most_workers) }
    ensures { Redoes state.old
        (record { worker = worker; binding = binding.now; outs = outs.now }) result state.new }
{
    let number = next_number(state);
    if number > options.steps {
        return Err(ReplayFault::V4(number));
    }
    let candidate = match candidate_of(alloc, state, options.depth, binding) {
        Ok(candidate) => candidate,
        Err(unfit) => return Err(fault_by(unfit, number)),
    };
    let fired = fire_now(alloc, state, worker, &candidate)?;
    if !fired {
        return Err(ReplayFault::V3(number));
    }
    let same = has_printed(state.entries(), outs);
    if !same {
        return Err(ReplayFault::V3(number));
    }
    Ok(())
}
