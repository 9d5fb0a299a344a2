//! Looking at all that is asked of a binding that grows. Of a node its tests come first, then
//! operator applications, arcs and calls, and a look ends where one alternative at most is left.
//! What is settled stays so with further decisions, so a look begins after it (`docs/SEARCH.md`,
//! 'What it does next').
ghost use Rattle.std.specs.Prelude.{◌≡◌, ◌<◌, IfOk, IsTrue, length, map};
ghost use Rattle.rn_binding.specs.link.Applications.{application_of};
ghost use Rattle.rn_search.specs.Points.{holes_of};
ghost use Rattle.rn_looking.specs.declared.look.Look.TheVariants as L;
ghost use Rattle.rn_looking.specs.Applying.{AreAppliedIn};
ghost use Rattle.rn_looking.specs.Branches.{IsBranchOf};
ghost use Rattle.rn_looking.specs.link.Views.{AllLooked, IsNodeStuck, IsNodeView, NodeLooked};
ghost use Rattle.rn_looking.specs.Looks.{IsNarrowed, Looked, Urges};
ghost use Rattle.rn_looking.specs.Settling.{AreSettled, LookedOn};
ghost use Rattle.rn_looking.specs.Things.{IsOfNode, IsOfEntry, IsOnArcs};

use crate::arcs::look_at_arcs;
use crate::best::{better, goes_on, is_best};
use crate::calls::{lacks_levels, look_at_calls};
use crate::flexible::test_lists;
use crate::guards::test_guards;
use crate::inhibitors::test_inhibitors;
use crate::look::Look;
use crate::near::look_near;
use crate::parts::transition_in;
use crate::results::look_at_results;
use crate::tested::{Remembered, TextChoice, step_on};
use crate::told::{has_failed, holds};
use crate::views::{BranchView, NodeView};
use rn_binding::Application;
use rn_choices::Next;
use rn_growing::{Decision, Growing, Head};
use rn_items::Items;
use rn_search::Problem;
use rn_value::NoMemory;
use std::alloc::Global;

// Whether a node lacks levels for its calls, or a guard or an inhibitor arc of it fails. Those of the
// nodes that so many of the first decisions enter are known to hold.
fn fails_guard(alloc: Global, at: NodeView<'_>, passed: &mut usize) -> Result<bool, NoMemory>
    requires { IsNodeView at }
    ensures { IfOk result (λ yes. IsTrue yes → IsNodeStuck at.entry) }
{
    if at.node < *passed {
        return Ok(false);
    }
    if lacks_levels(at) {
        return Ok(true);
    }
    let guards = test_guards(alloc, at)?;
    if has_failed(guards) {
        return Ok(true);
    }
    let inhibitors = test_inhibitors(alloc, at)?;
    if has_failed(inhibitors) {
        return Ok(true);
    }
    if holds(guards) && holds(inhibitors) {
        step_on(passed, at.node);
    }
    Ok(false)
}

// Whether a flexible arc of a node fails. Those of the nodes that so many of the first decisions
// enter are known to hold.
fn fails_list(alloc: Global, at: NodeView<'_>, passed: &mut usize) -> Result<bool, NoMemory>
    requires { IsNodeView at }
    ensures { IfOk result (λ yes. IsTrue yes → IsNodeStuck at.entry) }
{
    if at.node < *passed {
        return Ok(false);
    }
    let lists = test_lists(alloc, at)?;
    if holds(lists) {
        step_on(passed, at.node);
    }
    Ok(has_failed(lists))
}

// Whether one of the tests of a node fails.
fn fails(alloc: Global, at: NodeView<'_>, kept: &mut Remembered) -> Result<bool, NoMemory>
    requires { IsNodeView at }
    ensures { IfOk result (λ yes. IsTrue yes → IsNodeStuck at.entry) }
{
    let passed = &mut kept.tested.guards;
    if fails_guard(alloc, at, passed)? {
        return Ok(true);
    }
    let passed = &mut kept.tested.lists;
    fails_list(alloc, at, passed)
}

// A look at a choice of a token counts by how often such ones were gone through in vain.
fn weighed(look: Look, kept: &Remembered, head: &Head) -> Look
    ensures { IsNarrowed look result }
{
    match look {
        Look::Goes(Next::Choose(point, of, begin), count) => {
            let count = kept.weighed(TextChoice::tokens(head), count);
            Look::Goes(Next::Choose(point, of, begin), count)
        }
        _ => look,
    }
}

// Looks at what the arcs of a node find.
fn look_for_tokens(
    alloc: Global,
    at: NodeView<'_>,
    first: usize,
    kept: &Remembered,
) -> Result<Look, NoMemory>
    requires { IsNodeView at }
    ensures { IfOk result (NodeLooked at.entry
        (IsOnArcs at.entry.head.now (length at.entry.transition.now.arcs))) }
{
    let look = look_at_arcs(alloc, at, first)?;
    Ok(weighed(look, kept, at.head))
}

// Looks at a node of this transition.
fn look_within(
    alloc: Global,
    at: NodeView<'_>,
    found: &[Application<'_>],
    first: usize,
    kept: &mut Remembered,
) -> Result<Look, NoMemory>
    requires at { IsNodeView at }
    requires are { map application_of found.now ≡ holes_of at.transition.now }
    ensures { IfOk result (NodeLooked at.entry (IsOfNode at.entry.head.now)) }
{
    if fails(alloc, at, kept)? {
        return Ok(Look::Goes(Next::Stuck, 0));
    }
    let results = look_at_results(alloc, at, found, &mut kept.result)?;
    if is_best(results) {
        return Ok(results);
    }
    let arcs = look_for_tokens(alloc, at, first, &*kept)?;
    let both = better(results, arcs);
    if is_best(both) {
        return Ok(both);
    }
    let calls = look_at_calls(alloc, at, kept)?;
    Ok(better(both, calls))
}

/// Looks at what a decision asks.
pub(crate) fn look_at_node(
    alloc: Global,
    branch: BranchView<'_>,
    node: usize,
    kept: &mut Remembered,
) -> Result<Look, NoMemory>
    requires branch { IsBranchOf branch.problem.now branch.growing.now }
    requires applied { AreAppliedIn branch.growing.now.system branch.growing.now.decisions
        branch.applications.now }
    requires within { node < length branch.growing.now.decisions }
    ensures { IfOk result (Looked branch.entry.problem.now branch.entry.growing.now.decisions
        (IsOfEntry branch.entry.growing.now.decisions node)) }
{
    let Decision::Entered(head, _) = &branch.growing.decisions()[node] else {
        kept.tested.pass(node);
        return Ok(Look::Done);
    };
    // For its clause: the tokens of the table fit their places.
    let _ = branch.problem.table();
    let transition = transition_in(branch.problem.system(), head);
    let found = branch.applications[node].as_slice();
    let at = NodeView {
        problem: branch.problem,
        growing: branch.growing,
        node,
        head,
        transition,
    };
    look_within(alloc, at, found, branch.first, kept)
}

// Whether all of the things looked at are decided.
fn is_done(look: Look) -> bool
    ensures { IsTrue result → look ≡ L.Done }
{
    match look {
        Look::Done => true,
        Look::Waits => false,
        Look::Goes(_, _) => false,
    }
}

// How many nodes are looked at beyond the first by which the search can go on with one of several
// alternatives, and how many of the newest ones then.
const FURTHER: usize = 16;

const NEWEST: usize = 4;

// Looks at the newest decisions too, from one on, where it is known how the search can go on.
fn look_at_newest(
    alloc: Global,
    branch: BranchView<'_>,
    from: usize,
    kept: &mut Remembered,
    known: Look,
) -> Result<Look, NoMemory>
    requires branch { IsBranchOf branch.problem.now branch.growing.now }
    requires applied { AreAppliedIn branch.growing.now.system branch.growing.now.decisions
        branch.applications.now }
    requires urges { Urges known }
    requires looked { AllLooked branch known }
    ensures { IfOk result (AllLooked branch.entry) }
{
    let mut best = known;
    let end = branch.growing.mark();
    for node in from.max(end.saturating_sub(NEWEST))..end {
        let look = look_at_node(alloc, branch, node, kept)?;
        best = better(best, look);
    }
    Ok(best)
}

// Looks at what is asked, from the first decision that may not be settled on. Where it can go on, few
// more nodes are looked at; where it can't, all are.
fn look_at_rest(
    alloc: Global,
    branch: BranchView<'_>,
    from: usize,
    kept: &mut Remembered,
) -> Result<(Look, usize), NoMemory>
    requires branch { IsBranchOf branch.problem.now branch.growing.now }
    requires applied { AreAppliedIn branch.growing.now.system branch.growing.now.decisions
        branch.applications.now }
    requires settled { AreSettled branch.problem.now.system branch.growing.now.decisions from }
    ensures { IfOk result (λ looked. LookedOn branch.entry.problem.now
        branch.entry.growing.now.decisions looked.0 looked.1) }
{
    let mut best = Look::Done;
    let mut settled = from;
    let mut further = 0usize;
    for node in from..branch.growing.mark() {
        let look = look_at_node(alloc, branch, node, kept)?;
        best = better(best, look);
        if is_best(best) {
            kept.near = node;
            return Ok((best, settled));
        }
        if is_done(best) {
            settled = node + 1;
        }
        if goes_on(best) {
            if further == FURTHER {
                let look = look_at_newest(alloc, branch, node + 1, kept, best)?;
                return Ok((look, settled));
            }
            further = further.saturating_add(1);
        }
    }
    Ok((best, settled))
}

/// Looks at what is asked, and finds how it goes on, and how many of the first decisions are
/// settled. It begins after those that are known to be, or near where the last look found how to go
/// on. The operator applications of the nodes stand beside the decisions.
pub fn look_at_all(
    alloc: Global,
    problem: &Problem<'_>,
    growing: &Growing<'_>,
    applications: &[Items<Application<'_>>],
    first: usize,
    from: usize,
    kept: &mut Remembered,
) -> Result<(Look, usize), NoMemory>
    requires branch { IsBranchOf problem.now growing.now }
    requires applied { AreAppliedIn growing.now.system growing.now.decisions applications.now }
    requires settled { AreSettled problem.now.system growing.now.decisions from }
    ensures { IfOk result (λ looked. LookedOn problem.now growing.now.decisions looked.0 looked.1) }
{
    let branch = BranchView {
        problem,
        growing,
        applications,
        first,
    };
    if let Some(nearest) = look_near(alloc, branch, from, kept)? {
        return Ok((nearest, from));
    }
    let looked = look_at_rest(alloc, branch, from, kept)?;
    kept.keep_idle(looked.0);
    Ok(looked)
}
