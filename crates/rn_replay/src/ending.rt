//! The end that is told.
ghost use Rattle.std.specs.Prelude.{◌≡◌, ◌↔◌, None, Some, Ok, IsTrue};
ghost use Rattle.rn_model.specs.declared.log.Reason.TheVariants as End;
ghost use Rattle.rn_model.specs.Runs.{entries_of};
ghost use Rattle.rn_fire.specs.link.States.{firings_in};
ghost use Rattle.rn_model.specs.declared.log.Entry.TheVariants as EntryIs;
ghost use Rattle.rn_replay.specs.link.Parts.{IsEnd, IsUntrueBy, TriesEnd};
ghost use Rattle.rn_replay.specs.link.Parts.{cause_of, fault_cause, last_of};
ghost use Rattle.rn_replay.specs.Replays.{IsWhole};

use crate::firing::{Unfit, candidate_of, fire_now, next_number};
use rn_fire::SimState;
use rn_items::NoMemory;
use rn_model::{Binding, Entry, FaultKind, Options, Reason};
use std::alloc::Global;

/// What comes of an end that is tried.
#[derive(Clone, Copy, Debug, PartialEq, Eq)]
pub(crate) enum EndTried {
    /// It is true, and the log has it.
    Ended,

    /// It isn't true.
    Untrue,

    /// It is dead below the step limit, which is true where no binding is enabled.
    Unsearched,
}

/// Whether a reason is a fault of this cause.
fn is_fault_by(reason: &Reason, cause: FaultKind) -> bool
    ensures { IsTrue result ↔ (fault_cause reason.now ≡ Some cause) }
{
    match reason {
        Reason::Fault(found, _) => *found == cause,
        Reason::Dead => false,
        Reason::Steps => false,
        Reason::Memory => false,
    }
}

/// Whether an entry is such an end.
fn ends_by(entry: &Entry, cause: FaultKind) -> bool
    ensures { IsTrue result ↔ (cause_of (Some entry.now) ≡ Some cause) }
{
    match entry {
        Entry::End(reason) => is_fault_by(reason, cause),
        Entry::Fire {
            worker: _,
            binding: _,
            outs: _,
        } => false,
    }
}

/// Whether the last entry is.
fn has_cause(entries: &[Entry], cause: FaultKind) -> bool
    ensures { IsTrue result ↔ (cause_of (last_of entries.now) ≡ Some cause) }
{
    match entries.last() {
        Some(entry) => ends_by(entry, cause),
        None => false,
    }
}

/// Ends a log with a fault, where that is true.
fn try_fault(
    alloc: Global,
    state: &mut SimState,
    options: &Options,
    cause: FaultKind,
    binding: &Binding,
) -> Result<EndTried, NoMemory>
    requires going { state.old.ended ≡ None }
    requires options { options.now ≡ state.old.setup.options }
    ensures { TriesEnd state.old (End.Fault cause binding.now) result state.new }
{
    let number = next_number(state);
    if number > options.steps {
        return Ok(EndTried::Untrue);
    }
    let candidate = match candidate_of(alloc, state, options.depth, binding) {
        Ok(candidate) => candidate,
        Err(unfit) => return untrue_by(unfit),
    };
    let fired = fire_now(alloc, state, 1, &candidate)?;
    if fired {
        return Ok(EndTried::Untrue);
    }
    let same = has_cause(state.entries(), cause);
    if !same {
        return Ok(EndTried::Untrue);
    }
    Ok(EndTried::Ended)
}

/// What comes of a fault whose binding isn't enabled.
fn untrue_by(unfit: Unfit) -> Result<EndTried, NoMemory>
    ensures { IsUntrueBy unfit result }
{
    match unfit {
        Unfit::Unsound => Ok(EndTried::Untrue),
        Unfit::Unmet => Ok(EndTried::Untrue),
        Unfit::NoMemory(no_memory) => Err(no_memory),
    }
}

/// Ends a log that is told to be dead, as far as that needs no search.
fn try_dead(state: &SimState, options: &Options) -> EndTried
    requires going { state.now.ended ≡ None }
    requires options { options.now ≡ state.now.setup.options }
    ensures { TriesEnd state.now End.Dead (Ok result) state.now }
{
    let number = next_number(state);
    if number > options.steps {
        return EndTried::Untrue;
    }
    EndTried::Unsearched
}

/// Ends a log at the step limit, where it is reached.
fn try_steps(state: &mut SimState) -> EndTried
    requires going { state.old.ended ≡ None }
    ensures { TriesEnd state.old End.Steps (Ok result) state.new }
{
    let ended = state.end_steps();
    if !ended {
        return EndTried::Untrue;
    }
    EndTried::Ended
}

/// Ends a log for this reason, where that is true and needs no search.
pub(crate) fn try_end(
    alloc: Global,
    state: &mut SimState,
    options: &Options,
    reason: &Reason,
) -> Result<EndTried, NoMemory>
    requires going { state.old.ended ≡ None }
    requires options { options.now ≡ state.old.setup.options }
    ensures { TriesEnd state.old reason.now result state.new }
{
    match reason {
        Reason::Dead => Ok(try_dead(state, options)),
        Reason::Steps => Ok(try_steps(state)),
        Reason::Memory => {
            state.end_memory_as_told();
            Ok(EndTried::Ended)
        }
        Reason::Fault(cause, binding) => try_fault(alloc, state, options, *cause, binding),
    }
}

/// The reason of an entry that is an end.
fn reason_of(entry: &Entry) -> &Reason
    requires { IsEnd entry.now }
    ensures { entry.now ≡ EntryIs.End result.now }
{
    match entry {
        Entry::End(reason) => reason,
        Entry::Fire {
            worker: _,
            binding: _,
            outs: _,
        } => unreachable!(),
    }
}

/// The end that is told.
pub(crate) fn told_end(entries: &[Entry]) -> &Reason
    requires { IsWhole entries.now }
    ensures { entries.now ≡ entries_of (firings_in entries.now) (Some result.now) }
{
    match entries.last() {
        Some(entry) => reason_of(entry),
        None => unreachable!(),
    }
}
