//! Looking at the calls of a node. A call waits until its target is forced, since a later token may
//! force it; then one of its answers is to be chosen. As how many it counts decides when, so that
//! answers which a token would decide aren't tried before that token (`docs/SEARCH.md`, 'What it
//! does next').
ghost use Rattle.std.specs.Prelude.{◌≡◌, ◌<◌, ℕ, IfOk, IfSome, Some, length, nat_lt};
ghost use Rattle.std.specs.Prelude.{IsTrue, slice_get};
ghost use Rattle.rn_growing.specs.Decisions.{transition_in};
ghost use Rattle.rn_model.specs.Derivation.{target};
ghost use Rattle.rn_model.specs.Kinds.{HasExprKind};
ghost use Rattle.rn_value.specs.declared.value.Kind.{Kind};
ghost use Rattle.rn_value.specs.declared.value.Kind.TheVariants as K;
ghost use Rattle.rn_search.specs.Making.{makes};
ghost use Rattle.rn_looking.specs.link.Views.{IsNodeStuck, IsNodeView, NodeLooked};
ghost use Rattle.rn_looking.specs.Calling.{IsCalledOn, IsMaker, IsTarget};
ghost use Rattle.rn_looking.specs.Things.{IsOnCall, IsOnCalls, IsToBeCalled};

use crate::answers::{Left, answers_left};
use crate::best::{better, goes_on, is_best, is_enough};
use crate::look::Look;
use crate::tested::{Remembered, TextChoice};
use crate::views::NodeView;
use rn_choices::Next;
use rn_growing::{Decision, Growing, Head, transition_in};
use rn_model::{Downlink, Expr, System, Transition};
use rn_search::{Called, Point, what_may_be_cut};
use rn_value::{InstRef, NoMemory, Value, copy_inst};
use std::alloc::Global;

// Whether the transition of a node has a creation of this index.
fn has_creation(system: &System, head: &Head, j: u8) -> bool
    ensures { result ≡ nat_lt j (length (transition_in system.now head.now).creations) }
{
    match transition_in(system, head) {
        Some(transition) => (j as usize) < transition.creations.len(),
        None => false,
    }
}

// Whether a decision enters the node on a path, and its transition has this creation.
fn makes(system: &System, path: &[u32], j: u8, decision: &Decision) -> bool
    ensures { result ≡ makes system.now path.now j decision.now }
{
    match decision {
        Decision::Entered(head, _) => head.path.as_slice() == path && has_creation(system, head, j),
        Decision::Found(_, _, _) => false,
        Decision::Computed(_, _, _, _) => false,
    }
}

// The index of the decision by which an instance is made.
fn maker_of(system: &System, decisions: &[Decision], path: &[u32], j: u8) -> Option<usize>
    ensures { IsMaker system.now decisions.now path.now j result }
{
    for k in 0..decisions.len() {
        if makes(system, path, j, &decisions[k]) {
            return Some(k);
        }
    }
    None
}

// The instance that is called, where it is there or made.
fn called_on(system: &System, decisions: &[Decision], inst: &InstRef) -> Option<Called>
    ensures { IsCalledOn system.now decisions.now inst.now result }
{
    match inst {
        InstRef::Old(number) => Some(Called::Kept(*number)),
        InstRef::New(path, j) => match maker_of(system, decisions, path.as_slice(), *j) {
            Some(k) => Some(Called::Made(k, *j)),
            None => None,
        },
    }
}

// The value to which the target of a call is forced.
fn target_of(
    alloc: Global,
    growing: &Growing<'_>,
    head: &Head,
    i: usize,
    expr: &Expr,
) -> Result<Option<Value>, NoMemory>
    requires { (kinds : ℕ → Kind) × HasExprKind kinds expr.now K.Net }
    ensures { IfOk result (λ value. IsTarget growing.now head.now (target i) expr.now value) }
{
    // Only a clause speaks of it.
    let _ = i;
    match expr {
        Expr::This => Ok(Some(Value::Inst(copy_inst(alloc, &head.inst)?))),
        Expr::Var(x) => growing.value(alloc, head.path.as_slice(), *x),
        _ => Ok(None),
    }
}

// The downlink of an index.
fn downlink_at(transition: &Transition, i: usize) -> &Downlink
    requires { i < length transition.now.downlinks }
    ensures { slice_get transition.now.downlinks i ≡ Some result.now }
{
    &transition.downlinks.as_slice()[i]
}

// As many answers, and an estimate of what is open already, from which on a call waits for tokens.
const OPEN: usize = 16;

// About how many combinations of answers are open already: two for each level of calls above, and
// more where there are many decisions.
fn open_before(depth: usize, decisions: usize) -> usize {
    if depth > 8 {
        return OPEN;
    }
    (1usize << depth).max(decisions / 4)
}

// As how many alternatives a call counts. Its answers may call further, and a token may decide them:
// then it counts as more than there are, and where much is open already it comes after all tokens. One
// of which each answer asks for nothing comes last of all.
fn counts_as(left: Left, depth: usize, decisions: usize) -> usize {
    if left.count > 1 && left.idle {
        return usize::MAX;
    }
    if left.count < 2 || !left.calls {
        return left.count;
    }
    let all = left.count.saturating_mul(open_before(depth, decisions));
    if all > OPEN {
        return usize::MAX - 1;
    }
    all * 8
}

// Looks at a call that wasn't answered yet.
fn look_for_answer(
    alloc: Global,
    at: NodeView<'_>,
    i: usize,
    kept: &Remembered,
) -> Result<Look, NoMemory>
    requires at { IsNodeView at }
    requires open { IsToBeCalled at.growing.now.decisions at.head.now at.transition.now i }
    ensures { IfOk result (NodeLooked at.entry (IsOnCall at.entry.head.now i)) }
{
    let downlink = downlink_at(at.transition, i);
    let Some(value) = target_of(alloc, at.growing, at.head, i, &downlink.target)? else {
        return Ok(Look::Waits);
    };
    let Value::Inst(inst) = &value else {
        return Ok(Look::Goes(Next::Stuck, 0));
    };
    if at.head.path.len() >= at.problem.depth() as usize {
        return Ok(Look::Goes(Next::Stuck, 0));
    }
    let decisions = at.growing.decisions();
    let Some(called) = called_on(at.problem.system(), decisions, inst) else {
        return Ok(Look::Goes(Next::Stuck, 0));
    };
    let point = Point::Call(at.node, i, called);
    let of = at.problem.alternatives(decisions, point);
    let left = answers_left(alloc, at, i, downlink, inst, called)?;
    let count = counts_as(left, at.head.path.len(), decisions.len());
    let count = if count == usize::MAX {
        count
    } else {
        kept.weighed(TextChoice::call(at.head, i), count)
    };
    Ok(Look::Goes(Next::Choose(point, of, left.first), count))
}

/// Whether a node's calls need more levels than are left. Then the decisions lead to no binding.
pub(crate) fn lacks_levels(at: NodeView<'_>) -> bool
    requires { IsNodeView at }
    ensures { IsTrue result → IsNodeStuck at.entry }
{
    what_may_be_cut();
    !at.problem.has_levels(at.head)
}

// Looks at one of them.
fn look_at_call(
    alloc: Global,
    at: NodeView<'_>,
    i: usize,
    kept: &Remembered,
) -> Result<Look, NoMemory>
    requires at { IsNodeView at }
    requires within { i < length at.transition.now.downlinks }
    ensures { IfOk result (NodeLooked at.entry (IsOnCall at.entry.head.now i)) }
{
    if at.growing.was_called(at.head.path.as_slice(), i as u32) {
        return Ok(Look::Done);
    }
    look_for_answer(alloc, at, i, kept)
}

// From so many calls on a look begins with those beside the one that was found last.
const MANY: usize = 8;

// How many calls are looked at beyond the first by which the search can go on.
const FURTHER: usize = 16;

// Looks at the two calls beside the one that a look found last, and at that. It counts where nothing
// better can come.
fn look_near_call(
    alloc: Global,
    at: NodeView<'_>,
    kept: &mut Remembered,
) -> Result<Option<Look>, NoMemory>
    requires { IsNodeView at }
    ensures { IfOk result (λ best. IfSome best (NodeLooked at.entry
        (IsOnCalls at.entry.head.now (length at.entry.transition.now.downlinks)))) }
{
    if at.node != kept.caller || at.transition.downlinks.len() < MANY {
        return Ok(None);
    }
    let beside = [
        kept.call.saturating_add(1),
        kept.call.saturating_sub(1),
        kept.call,
    ];
    for k in 0..3 {
        let i = beside[k];
        if i < at.transition.downlinks.len() {
            let look = look_at_call(alloc, at, i, &*kept)?;
            if is_enough(look, kept.idle) {
                kept.call = i;
                return Ok(Some(look));
            }
        }
    }
    Ok(None)
}

/// Looks at the calls of a node.
pub(crate) fn look_at_calls(
    alloc: Global,
    at: NodeView<'_>,
    kept: &mut Remembered,
) -> Result<Look, NoMemory>
    requires { IsNodeView at }
    ensures { IfOk result (NodeLooked at.entry
        (IsOnCalls at.entry.head.now (length at.entry.transition.now.downlinks))) }
{
    if let Some(nearest) = look_near_call(alloc, at, kept)? {
        return Ok(nearest);
    }
    let mut best = Look::Done;
    let mut further = 0usize;
    for i in 0..at.transition.downlinks.len() {
        let look = look_at_call(alloc, at, i, &*kept)?;
        best = better(best, look);
        if is_best(best) {
            kept.caller = at.node;
            kept.call = i;
            return Ok(best);
        }
        if goes_on(best) {
            if further == FURTHER {
                return Ok(best);
            }
            further = further.saturating_add(1);
        }
    }
    Ok(best)
}
