//! A least run with the numbers of bindings that are enabled before and after each firing.
ghost use Rattle.std.specs.Prelude.{◌≡◌, ◌≢◌, ◌<◌, ◌≤◌, [], None, Some, IfOk, OnOk, length, take};
ghost use Rattle.rn_channel.specs.link.Uplinks.{AreUplinksOf};
ghost use Rattle.rn_model.specs.declared.log.Reason.TheVariants.{Memory as OutOfMemory};
ghost use Rattle.rn_model.specs.Good.{Good, IsInLimits};
ghost use Rattle.rn_model.specs.Runs.{end_of};
ghost use Rattle.rn_fire.specs.States.{end_marking};
ghost use Rattle.rn_incr.specs.Counts.{AreCounts, IsCounted};
ghost use Rattle.rn_incr.specs.link.Following.{Advances, IsFollowed, AdvancesListed};
ghost use Rattle.rn_incr.specs.Lists.{AreListsOf};

use crate::lists::{Lists, open_lists};
use rn_channel::Uplinks;
use rn_fire::SimState;
use rn_items::{Items, NoMemory};
use rn_least_state::{CommitAt, LeastState, open_least};
use rn_model::{Options, System};
use std::alloc::Global;
use std::sync::Arc;

/// Numbers of bindings, one for each state of a run.
pub type Counts = Items<u128>;

/// A least run that has ended, and how many bindings were enabled after so many of its firings: the
/// first number is that of the first marking.
#[derive(Drop)]
pub struct Counted {
    pub state: SimState,
    pub counts: Counts,
}

// Fires the first of the enabled bindings, where there is one and its firing is defined, and returns
// whether it did. Else the log has ended.
fn fire_first(alloc: Global, state: &mut LeastState, lists: &Lists) -> Result<bool, NoMemory>
    requires going { state.old.ended ≡ None }
    requires below { length state.old.fired < state.old.setup.options.steps }
    requires followed { IsFollowed state.old lists.now }
    ensures { IfOk result (λ fired. Advances state.old fired state.new) }
{
    let seen = state.base().length();
    let Some(first) = lists.first() else {
        state.commit_none(seen);
        return Ok(false);
    };
    match state.commit_at(alloc, 1, first, seen) {
        CommitAt::Fired { step: _ } => Ok(true),
        CommitAt::Late { seen: _, now: _ } => Ok(false),
        CommitAt::Faulted => Ok(false),
        CommitAt::Ended => Ok(false),
        CommitAt::NoMemory(no_memory) => Err(no_memory),
    }
}

// Brings lists up to date that were those after the first `seen` firings, when the next number was
// `next`.
fn follow(
    alloc: Global,
    uplinks: &Uplinks,
    state: &LeastState,
    lists: &mut Lists,
    seen: u64,
    next: u32,
) -> Result<(), NoMemory>
    requires own { AreUplinksOf state.now.setup.system uplinks.now }
    requires seen { seen ≤ length state.now.fired }
    requires next { next ≡ (end_of state.now.setup.system (take seen state.now.fired)).next }
    requires whole { state.now.table.marking ≡ end_marking state.now }
    requires at { lists.old.marking
        ≡ end_of state.now.setup.system (take seen state.now.fired) }
    requires depth { lists.old.depth ≡ state.now.setup.options.depth }
    requires lists { AreListsOf state.now.setup.system lists.old }
    ensures { OnOk result (IsFollowed state.now lists.new) }
{
    let changed = state.changed_since(alloc, seen, next)?;
    let base = state.base();
    // For its clause: it is a state of a run (`IsState`), so its tokens fit their places.
    let _length = base.length();
    lists.refresh(base.system(), uplinks, base.table(), changed.as_slice())?;
    Ok(())
}

// Fires the first of the enabled bindings and brings the lists up to date. It returns whether it fired.
// Else the log has ended.
fn step(
    alloc: Global,
    uplinks: &Uplinks,
    state: &mut LeastState,
    lists: &mut Lists,
) -> Result<bool, NoMemory>
    requires own { AreUplinksOf state.old.setup.system uplinks.now }
    requires going { state.old.ended ≡ None }
    requires below { length state.old.fired < state.old.setup.options.steps }
    requires followed { IsFollowed state.old lists.old }
    ensures { IfOk result (λ fired. AdvancesListed state.old fired state.new lists.new) }
{
    let base = state.base();
    let seen = base.length();
    let next = base.table().next();
    let fired = fire_first(alloc, state, lists)?;
    if !fired {
        return Ok(false);
    }
    follow(alloc, uplinks, state, lists, seen, next)?;
    Ok(true)
}

// Goes on until the log ends or has so many firings, and counts after each.
fn go_on(
    alloc: Global,
    uplinks: &Uplinks,
    state: &mut LeastState,
    lists: &mut Lists,
    counts: &mut Vec<u128>,
    steps: u32,
) -> Result<(), NoMemory>
    requires own { AreUplinksOf state.old.setup.system uplinks.now }
    requires steps { steps ≡ state.old.setup.options.steps }
    requires going { state.old.ended ≡ None }
    requires begins { state.old.fired ≡ [] }
    requires followed { IsFollowed state.old lists.old }
    requires counts { AreCounts state.old.setup.system state.old.setup.options.depth []
        counts.old.items }
    ensures setup { OnOk result (state.new.setup ≡ state.old.setup) }
    ensures reason { OnOk result (state.new.ended ≢ Some OutOfMemory) }
    ensures all { OnOk result (state.new.ended ≡ None →
        length state.new.fired ≡ state.new.setup.options.steps) }
    ensures counts { OnOk result (AreCounts state.new.setup.system
        state.new.setup.options.depth state.new.fired counts.new.items) }
{
    for _ in 0..steps {
        let fired = step(alloc, uplinks, state, lists)?;
        if !fired {
            return Ok(());
        }
        counts.push(lists.count())?;
    }
    Ok(())
}

/// Fires the first of the enabled bindings again and again as worker 1, until the log ends, and counts
/// the enabled bindings before the first firing and after each. The lists of bindings are kept, so a
/// firing costs what it may have changed. It drops no instance.
pub fn run_counts(alloc: Global, system: Arc<System>, options: Options) -> Result<Counted, NoMemory>
    requires good { Good system.value }
    requires limits { IsInLimits options }
    ensures { IfOk result (λ c. IsCounted system.value options c.state c.counts) }
{
    let mut state = open_least(alloc, system, options)?;
    let base = state.base();
    // For its clause: it is a state of a run (`IsState`), so its tokens fit their places.
    let _length = base.length();
    let system = base.system();
    let uplinks = Uplinks::new(alloc, system)?;
    let mut lists = open_lists(alloc, system, &uplinks, base.table(), options.depth)?;
    let mut counts = Vec::new(alloc);
    counts.push(lists.count())?;
    go_on(
        alloc,
        &uplinks,
        &mut state,
        &mut lists,
        &mut counts,
        options.steps,
    )?;
    state.end_steps();
    let state = state.into_state();
    let counts = Items::from_vec(counts);
    Ok(Counted { state, counts })
}
