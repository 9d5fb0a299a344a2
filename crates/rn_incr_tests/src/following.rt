//! Lists that follow the firings of a state, against lists that are opened anew.
ghost use Rattle.std.specs.Prelude.{◌≡◌, ◌<◌, ◌≤◌, [], None, true, IfOk, OnOk, IsTrue};
ghost use Rattle.std.specs.Prelude.{length, take};
ghost use Rattle.rn_channel.specs.link.Uplinks.{AreUplinksOf};
ghost use Rattle.rn_model.specs.Runs.{end_of};
ghost use Rattle.rn_fire.specs.States.{end_marking};
ghost use Rattle.rn_incr.specs.link.Following.{Advances, IsFollowed, AdvancesListed};
ghost use Rattle.rn_incr.specs.Lists.{AreListsOf};

use crate::nets::{options_of, system_of};
use rn_channel::Uplinks;
use rn_incr::{Lists, open_lists};
use rn_items::NoMemory;
use rn_least_state::{CommitAt, LeastState, open_least};
use rn_model::compare_bindings;
use std::alloc::Global;
use std::test::Fail;

// Two clocks, to each of which the first instance refers. Each ticks once, and then its place is
// full.
const CLOCKS: &[u8] = b"net main { var a, b: net; place go = []; place keep: net;
  trans make { in go; a: new clock; b: new clock; out keep: a; out keep: b; } }
net clock { place ticks max 1; trans tick { out ticks; } }";

// What a firing leaves: which instances it may have changed, how many may start a firing and reach
// one of them, and how many bindings are enabled then.
type Due<'a> = (&'a [u32], u64, u128);

// The lists of the table of a state.
fn opened(
    alloc: Global,
    uplinks: &Uplinks,
    state: &LeastState,
    depth: u32,
) -> Result<Lists, NoMemory>
    requires { AreUplinksOf state.now.setup.system uplinks.now }
    ensures at { IfOk result
        (λ lists. (lists.marking ≡ state.now.table.marking) × (lists.depth ≡ depth)) }
    ensures lists { IfOk result (λ lists. AreListsOf state.now.setup.system lists) }
{
    let base = state.base();
    let _length = base.length();
    open_lists(alloc, base.system(), uplinks, base.table(), depth)
}

// Whether lists have as many bindings as others, and the same first one.
fn are_alike(lists: &Lists, others: &Lists) -> bool {
    let same = match (lists.first(), others.first()) {
        (None, None) => true,
        (Some(a), Some(b)) => compare_bindings(a.binding(), b.binding()).is_eq(),
        _ => false,
    };
    same && lists.count() == others.count()
}

// Fires the first of the enabled bindings, and returns whether it did.
fn fire_first(alloc: Global, state: &mut LeastState, lists: &Lists) -> Result<bool, NoMemory>
    requires going { state.old.ended ≡ None }
    requires below { length state.old.fired < state.old.setup.options.steps }
    requires followed { IsFollowed state.old lists.now }
    ensures { IfOk result (λ fired. IsTrue fired → Advances state.old true state.new) }
{
    let seen = state.base().length();
    let Some(first) = lists.first() else {
        return Ok(false);
    };
    match state.commit_at(alloc, 1, first, seen) {
        CommitAt::Fired { step: _ } => Ok(true),
        CommitAt::Late { seen: _, now: _ } => Ok(false),
        CommitAt::Faulted => Ok(false),
        CommitAt::Ended => Ok(false),
        CommitAt::NoMemory(no_memory) => Err(no_memory),
    }
}

// Brings lists up to date that were those after the first `seen` firings, when the next number was
// `next`. It returns what the state says that may have changed, and how many instances that
// touches.
fn follow(
    alloc: Global,
    uplinks: &Uplinks,
    state: &LeastState,
    lists: &mut Lists,
    seen: u64,
    next: u32,
) -> Result<(Vec<u32>, u64), NoMemory>
    requires own { AreUplinksOf state.now.setup.system uplinks.now }
    requires seen { seen ≤ length state.now.fired }
    requires next { next ≡ (end_of state.now.setup.system (take seen state.now.fired)).next }
    requires whole { state.now.table.marking ≡ end_marking state.now }
    requires at { lists.old.marking
        ≡ end_of state.now.setup.system (take seen state.now.fired) }
    requires depth { lists.old.depth ≡ state.now.setup.options.depth }
    requires lists { AreListsOf state.now.setup.system lists.old }
    ensures { OnOk result (IsFollowed state.now lists.new) }
{
    let changed = state.changed_since(alloc, seen, next)?;
    let base = state.base();
    let _length = base.length();
    let touched = lists.refresh(base.system(), uplinks, base.table(), changed.as_slice())?;
    Ok((changed, touched))
}

// Fires the first binding and brings the lists up to date. It returns whether it fired, and left
// what is due and what lists say that are opened anew.
fn step(
    alloc: Global,
    uplinks: &Uplinks,
    state: &mut LeastState,
    lists: &mut Lists,
    depth: u32,
    due: &Due<'_>,
) -> Result<bool, NoMemory>
    requires own { AreUplinksOf state.old.setup.system uplinks.now }
    requires going { state.old.ended ≡ None }
    requires below { length state.old.fired < state.old.setup.options.steps }
    requires followed { IsFollowed state.old lists.old }
    ensures { IfOk result (λ yes. IsTrue yes → AdvancesListed state.old true state.new lists.new) }
{
    let base = state.base();
    let seen = base.length();
    let next = base.table().next();
    let fired = fire_first(alloc, state, lists)?;
    if !fired {
        return Ok(false);
    }
    let (changed, touched) = follow(alloc, uplinks, state, lists, seen, next)?;
    let anew = opened(alloc, uplinks, state, depth)?;
    Ok(
        changed.as_slice() == due.0
            && touched == due.1
            && lists.count() == due.2
            && are_alike(lists, &anew),
    )
}

// Whether each of these is left in turn.
fn go_on(
    alloc: Global,
    uplinks: &Uplinks,
    state: &mut LeastState,
    lists: &mut Lists,
    depth: u32,
    dues: &[Due<'_>],
) -> Result<bool, NoMemory>
    requires own { AreUplinksOf state.old.setup.system uplinks.now }
    requires steps { length dues.now ≡ state.old.setup.options.steps }
    requires going { state.old.ended ≡ None }
    requires begins { state.old.fired ≡ [] }
    requires followed { IsFollowed state.old lists.old }
{
    for k in 0..dues.len() {
        if !step(alloc, uplinks, state, lists, depth, &dues[k])? {
            return Ok(false);
        }
    }
    Ok(true)
}

// Whether lists follow the clocks: the firing that makes them, and a tick of each.
fn clocks_are_followed(alloc: Global) -> Result<bool, Fail> {
    let options = options_of(3);
    let depth = options.depth;
    let mut state = open_least(alloc, system_of(alloc, CLOCKS)?, options)?;
    let uplinks = Uplinks::new(alloc, state.base().system())?;
    let mut lists = opened(alloc, &uplinks, &state, depth)?;
    let dues: &[Due<'_>] = &[(&[1, 2, 3], 3, 2), (&[2], 2, 1), (&[3], 2, 0)];
    Ok(go_on(alloc, &uplinks, &mut state, &mut lists, depth, dues)?)
}

#[test]
fn lists_follow_the_firings_of_a_state(rt: HostRuntime) -> Result<(), Fail> {
    let alloc = rt.alloc();
    assert!(rt; clocks_are_followed(alloc)?);
    Ok(())
}
