//! Guards that are tested before a decision is made. Of a guard whose variables are forced but for
//! one, the values are looked up once for all tokens of a choice. They rest on the decisions that
//! stand, so they are let go as soon as one of these is taken back (`docs/SEARCH.md`, 'A binding
//! grows by decisions').
ghost use Rattle.std.specs.Prelude.{◌≡◌, ◌⊎◌, All, IfOk, IfSome, IsTrue, None, Option, Some};
ghost use Rattle.std.specs.Prelude.{false, slice_get};
ghost use Rattle.rn_growing.specs.declared.decision.Caller.{Caller};
ghost use Rattle.rn_growing.specs.declared.decision.Decision.TheVariants as D;
ghost use Rattle.rn_growing.specs.Decisions.{transition_in};
ghost use Rattle.rn_value.specs.Kinds.{HasKind};
ghost use Rattle.rn_looking.specs.NodeKinds.{IsKindedNode, kinds_at};
ghost use Rattle.rn_branch.specs.Testing.{AreKept, FailsGuard, IsTest, RestOn};

use crate::offer::Offer;
use rn_calc::is_true;
use rn_growing::{Growing, Head};
use rn_looking::{Trial, put_guard, values_but};
use rn_model::Transition;
use rn_value::{NoMemory, Value};
use std::alloc::Global;

/// A guard of a node, by its index, with the values of its variables but one.
#[derive(Drop)]
pub(crate) struct Test {
    guard: usize,
    others: Vec<(u32, Value)>,
}

/// The guards of a node that are known but for one variable of it.
#[derive(Drop)]
pub(crate) struct Tests {
    /// By how many decisions.
    count: usize,

    /// Which of them entered the node.
    node: usize,
    var: u32,
    tests: Vec<Test>,
}

// The test of a guard, where it has this variable, and all others are forced.
fn test_of(
    alloc: Global,
    growing: &Growing<'_>,
    head: &Head,
    transition: &Transition,
    var: u32,
    k: usize,
) -> Result<Option<Test>, NoMemory>
    requires of { transition.now ≡ transition_in growing.now.system head.now }
    ensures { IfOk result (λ test. IfSome test (IsTest growing.now head.now var)) }
{
    let Some(guard) = transition.guards.get(k) else {
        return Ok(None);
    };
    let mut vars = Vec::new(alloc);
    put_guard(guard, &mut vars)?;
    if !vars.contains(&var) {
        return Ok(None);
    }
    match values_but(alloc, growing, head.path.as_slice(), var, vars.as_slice())? {
        Some(others) => Ok(Some(Test { guard: k, others })),
        None => Ok(None),
    }
}

// The tests of all guards that have this variable, and of which all others are forced.
fn tests_of(
    alloc: Global,
    growing: &Growing<'_>,
    head: &Head,
    transition: &Transition,
    var: u32,
) -> Result<Vec<Test>, NoMemory>
    requires of { transition.now ≡ transition_in growing.now.system head.now }
    ensures { IfOk result (λ tests. All (IsTest growing.now head.now var) tests.items) }
{
    let mut tests = Vec::new(alloc);
    for k in 0..transition.guards.len() {
        if let Some(test) = test_of(alloc, growing, head, transition, var, k)? {
            tests.push(test)?;
        }
    }
    Ok(tests)
}

// Whether the tests are of this variable of a node, by so many decisions.
fn are_of(tests: &Tests, count: usize, node: usize, var: u32) -> bool
    ensures count { IsTrue result → tests.now.count ≡ count }
    ensures node { IsTrue result → tests.now.node ≡ node }
    ensures var { IsTrue result → tests.now.var ≡ var }
{
    tests.count == count && tests.node == node && tests.var == var
}

/// Keeps the tests of a variable of the node of an offer, in place of those that were kept.
pub(crate) fn keep_tests(
    alloc: Global,
    growing: &Growing<'_>,
    kept: &mut Option<Tests>,
    node: usize,
    offer: &Offer<'_>,
    var: u32,
) -> Result<(), NoMemory>
    requires kept { AreKept growing.now kept.old }
    requires entered { (caller : Option Caller)
        × (slice_get growing.now.decisions node ≡ Some (D.Entered offer.now.head.now caller)) }
    requires of { offer.now.transition.now ≡ transition_in growing.now.system offer.now.head.now }
    ensures { AreKept growing.now kept.new }
{
    let count = growing.mark();
    if let Some(tests) = &*kept {
        if are_of(tests, count, node, var) {
            return Ok(());
        }
    }
    let tests = tests_of(alloc, growing, offer.head, offer.transition, var)?;
    *kept = Some(Tests {
        count,
        node,
        var,
        tests,
    });
    Ok(())
}

// Whether a guard isn't true where its variable is a token.
fn fails(
    alloc: Global,
    growing: &Growing<'_>,
    offer: &Offer<'_>,
    var: u32,
    test: &Test,
) -> Result<bool, NoMemory>
    requires of { offer.now.transition.now ≡ transition_in growing.now.system offer.now.head.now }
    requires test { IsTest growing.now offer.now.head.now var test.now }
    requires node { IsKindedNode growing.now offer.now.head.now offer.now.transition.now }
    requires token { HasKind offer.now.token.now (kinds_at growing.now offer.now.head.now var) }
    ensures { IfOk result (λ yes. IsTrue yes → FailsGuard growing.now offer.now var) }
{
    // Only a clause speaks of it.
    let _ = growing;
    let Some(guard) = offer.transition.guards.get(test.guard) else {
        return Ok(false);
    };
    let trial = Trial {
        this: &offer.head.inst,
        var,
        token: offer.token,
        others: test.others.as_slice(),
    };
    Ok(!is_true(alloc, guard, &trial)?)
}

// Whether one of these guards isn't.
fn fails_one(
    alloc: Global,
    growing: &Growing<'_>,
    offer: &Offer<'_>,
    var: u32,
    tests: &[Test],
) -> Result<bool, NoMemory>
    requires of { offer.now.transition.now ≡ transition_in growing.now.system offer.now.head.now }
    requires tests { All (IsTest growing.now offer.now.head.now var) tests.now }
    requires node { IsKindedNode growing.now offer.now.head.now offer.now.transition.now }
    requires token { HasKind offer.now.token.now (kinds_at growing.now offer.now.head.now var) }
    ensures { IfOk result (λ yes. IsTrue yes → FailsGuard growing.now offer.now var) }
{
    for test in tests {
        if fails(alloc, growing, offer, var, test)? {
            return Ok(true);
        }
    }
    Ok(false)
}

/// Whether a guard that is kept to be tested isn't true where a variable of it is a token.
pub(crate) fn fails_kept(
    alloc: Global,
    growing: &Growing<'_>,
    kept: &Option<Tests>,
    node: usize,
    offer: &Offer<'_>,
    var: u32,
) -> Result<bool, NoMemory>
    requires kept { AreKept growing.now kept.now }
    requires entered { (caller : Option Caller)
        × (slice_get growing.now.decisions node ≡ Some (D.Entered offer.now.head.now caller)) }
    requires of { offer.now.transition.now ≡ transition_in growing.now.system offer.now.head.now }
    requires node { IsKindedNode growing.now offer.now.head.now offer.now.transition.now }
    requires token { HasKind offer.now.token.now (kinds_at growing.now offer.now.head.now var) }
    ensures { IfOk result (λ yes. IsTrue yes → FailsGuard growing.now offer.now var) }
{
    let Some(tests) = kept else {
        return Ok(false);
    };
    if !are_of(tests, growing.mark(), node, var) {
        return Ok(false);
    }
    fails_one(alloc, growing, offer, var, tests.tests.as_slice())
}

// Whether the tests that are kept rest on more than so many decisions.
fn rest_on_more(kept: &Option<Tests>, count: usize) -> bool
    ensures { result ≡ false → RestOn kept.now count }
{
    match kept {
        Some(tests) => tests.count > count,
        None => false,
    }
}

/// Lets tests go that rest on more than so many decisions.
pub(crate) fn forget_beyond(kept: &mut Option<Tests>, count: usize)
    ensures rest { RestOn kept.new count }
    ensures same { (kept.new ≡ kept.old) ⊎ (kept.new ≡ None) }
{
    if rest_on_more(&*kept, count) {
        *kept = None;
    }
}
