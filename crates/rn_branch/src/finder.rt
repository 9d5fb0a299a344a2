//! Tokens that are passed by, since they lack a part that is known. Where the inscription of an arc
//! is a tuple and a part of it is a forced variable, no binding that follows finds a token without
//! that part. So the tokens up to the next one with it are passed at once (`docs/SEARCH.md`, 'A
//! binding grows by decisions').
ghost use Rattle.std.specs.Prelude.{◌≡◌, ◌<◌, ◌≤◌, ◌+◌, ℕ, IfOk, IfSome, IsTrue, true};
ghost use Rattle.rn_model.specs.Derivation.{finds_values};
ghost use Rattle.rn_branch.specs.Finders.{IsKnownPart, IsPassed, IsFinder};

use crate::part::next_with_part;
use rn_bag::Bag;
use rn_growing::{Decision, Growing, Head, transition_in};
use rn_model::{ArcKind, Expr, NetArc};
use rn_search::Problem;
use rn_value::{InstRef, NoMemory, Value};
use std::alloc::Global;

/// An arc of a node that finds a token, and the tokens of its place.
#[derive(Drop)]
pub(crate) struct Finder<'a> {
    head: &'a Head,
    arc: &'a NetArc,
    held: &'a Bag,
}

// Whether an arc finds a token. Its clause says what a finder needs, that the arc finds something;
// that of the call in `rn_model` doesn't.
fn finds_token(kind: ArcKind) -> bool
    ensures { IsTrue result → finds_values kind ≡ true }
{
    matches!(kind, ArcKind::Input | ArcKind::Test | ArcKind::Reserve)
}

/// An arc of a node, where it finds a token of a place.
pub(crate) fn finder_at<'a>(
    problem: &'a Problem<'_>,
    decisions: &'a [Decision],
    node: usize,
    k: usize,
) -> Option<Finder<'a>>
    ensures { IfSome result (IsFinder problem.now decisions.now node k) }
{
    let Some(Decision::Entered(head, _)) = decisions.get(node) else {
        return None;
    };
    let Some(transition) = transition_in(problem.system(), head) else {
        return None;
    };
    let Some(arc) = transition.arcs.get(k) else {
        return None;
    };
    if !finds_token(arc.kind) {
        return None;
    }
    let InstRef::Old(number) = &head.inst else {
        return None;
    };
    let Some(held) = problem.table().bag(*number, arc.place) else {
        return None;
    };
    Some(Finder { head, arc, held })
}

// The value of a part of the inscription of an arc, where the part is a variable that is forced, and
// nothing was found by the arc.
#[tactic(auto, using(crate::proofs::LackingParts::known_is))]
fn known_part(
    alloc: Global,
    growing: &Growing<'_>,
    k: usize,
    finder: &Finder<'_>,
    i: usize,
) -> Result<Option<Value>, NoMemory>
    ensures { IfOk result (λ told. IfSome told (IsKnownPart growing.now k finder.now i)) }
{
    let Expr::Tuple(parts) = &finder.arc.inscription else {
        return Ok(None);
    };
    let Some(Expr::Var(x)) = parts.get(i) else {
        return Ok(None);
    };
    let path = finder.head.path.as_slice();
    if growing.was_found(path, k) {
        return Ok(None);
    }
    growing.value(alloc, path, *x)
}

// The first index from one on whose token may have a part of the inscription, where that is known.
fn next_by_part(
    alloc: Global,
    growing: &Growing<'_>,
    k: usize,
    finder: &Finder<'_>,
    i: usize,
    from: usize,
) -> usize
    ensures { (index : ℕ) → from ≤ index → index < result → IsPassed growing.now k finder.now index }
{
    match known_part(alloc, growing, k, finder, i) {
        Ok(Some(part)) => next_with_part(finder.held, from, i, &part),
        _ => from,
    }
}

// How many parts the inscription of an arc has, where it is a tuple.
fn part_count(finder: &Finder<'_>) -> usize {
    match &finder.arc.inscription {
        Expr::Tuple(parts) => parts.len(),
        _ => 0,
    }
}

/// How many tokens from an index on lack a part of the inscription that is known. There may be more.
pub(crate) fn lacking(
    alloc: Global,
    growing: &Growing<'_>,
    k: usize,
    finder: &Finder<'_>,
    from: usize,
) -> usize
    ensures { (index : ℕ) → from ≤ index → index < from + result → IsPassed growing.now k finder.now index }
{
    for i in 1..part_count(finder) {
        let next = next_by_part(alloc, growing, k, finder, i, from);
        if next > from {
            return next - from;
        }
    }
    0
}
