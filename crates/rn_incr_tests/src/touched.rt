//! How many instances `refresh` says that a change touches.
ghost use Rattle.std.specs.Prelude.{◌≡◌, ◌≤◌, IfOk, OnOk};
ghost use Rattle.rn_channel.specs.link.Uplinks.{AreUplinksOf};
ghost use Rattle.rn_model.specs.Limits.{most_steps};
ghost use Rattle.rn_incr.specs.Lists.{AreListsOf};

use crate::anew::{CLOCKS, PACKED, TWO_HOPS};
use crate::nets::{options_of, system_of};
use rn_channel::Uplinks;
use rn_fire::SimState;
use rn_incr::{Lists, open_lists, run_counts};
use std::alloc::Global;
use std::test::Fail;

// The lists of the table of a state.
fn lists_of(alloc: Global, uplinks: &Uplinks, state: &SimState) -> Result<Lists, Fail>
    requires { AreUplinksOf state.now.setup.system uplinks.now }
    ensures at { IfOk result (λ lists. lists.marking ≡ state.now.table.marking) }
    ensures lists { IfOk result (λ lists. AreListsOf state.now.setup.system lists) }
{
    let _length = state.length();
    Ok(open_lists(alloc, state.system(), uplinks, state.table(), 4)?)
}

// How many instances are touched where these may have changed, though nothing has.
fn touched(
    uplinks: &Uplinks,
    state: &SimState,
    lists: &mut Lists,
    changed: &[u32],
) -> Result<u64, Fail>
    requires own { AreUplinksOf state.now.setup.system uplinks.now }
    requires at { lists.old.marking ≡ state.now.table.marking }
    requires lists { AreListsOf state.now.setup.system lists.old }
    ensures at { OnOk result (lists.new.marking ≡ state.now.table.marking) }
    ensures lists { OnOk result (AreListsOf state.now.setup.system lists.new) }
{
    let _length = state.length();
    Ok(lists.refresh(state.system(), uplinks, state.table(), changed)?)
}

// Whether the numbers for some changes are these, and all bindings stay.
fn are_touched(
    uplinks: &Uplinks,
    state: &SimState,
    lists: &mut Lists,
    changes: &[(&[u32], u64)],
) -> Result<bool, Fail>
    requires own { AreUplinksOf state.now.setup.system uplinks.now }
    requires at { lists.old.marking ≡ state.now.table.marking }
    requires lists { AreListsOf state.now.setup.system lists.old }
{
    let count = lists.count();
    for change in changes {
        let number = touched(uplinks, state, lists, change.0)?;
        if number != change.1 || lists.count() != count {
            return Ok(false);
        }
    }
    Ok(true)
}

// The same at the end of the least run of a net with so many firings.
fn are_touched_after(
    alloc: Global,
    text: &[u8],
    steps: u32,
    changes: &[(&[u32], u64)],
) -> Result<bool, Fail>
    requires { steps ≤ most_steps }
{
    let counted = run_counts(alloc, system_of(alloc, text)?, options_of(steps))?;
    let state = &counted.state;
    let uplinks = Uplinks::new(alloc, state.system())?;
    let mut lists = lists_of(alloc, &uplinks, state)?;
    are_touched(&uplinks, state, &mut lists, changes)
}

#[test]
fn a_change_touches_those_that_reach_it(rt: HostRuntime) -> Result<(), Fail> {
    let alloc = rt.alloc();
    // The clocks are instances 2 and 3, and the first instance refers to both.
    let clocks: &[(&[u32], u64)] = &[
        (&[], 0),
        (&[1], 1),
        (&[2], 2),
        (&[3], 2),
        (&[2, 3], 3),
        (&[4], 0),
    ];
    assert!(rt; are_touched_after(alloc, CLOCKS, 1, clocks)?);
    // Instance 3 is reached from the first by instance 2.
    let hops: &[(&[u32], u64)] = &[(&[1], 1), (&[2], 2), (&[3], 3)];
    assert!(rt; are_touched_after(alloc, TWO_HOPS, 2, hops)?);
    // The first instance refers to instance 2 by a list in a tuple.
    let packed: &[(&[u32], u64)] = &[(&[1], 1), (&[2], 2)];
    assert!(rt; are_touched_after(alloc, PACKED, 1, packed)?);
    Ok(())
}
