//! Looking at the arcs of a node. A token that is known is looked up, which forces the arc or ends
//! the branch; with a known first part only the tuples with that part are to choose from; else all
//! tokens of the place are. So what is known already isn't found out by trying tokens
//! (`docs/SEARCH.md`, 'What it does next').
ghost use Rattle.std.specs.Prelude.{◌≡◌, ◌<◌, IfOk, IfSome, Some, length, slice_get};
ghost use Rattle.rn_looking.specs.link.Views.{IsNodeView, NodeLooked};
ghost use Rattle.rn_looking.specs.Equating.{IsKnownToken, IsTokenOf};
ghost use Rattle.rn_looking.specs.Knowing.{IsKnownFirst, IsKnownTokenFirst, IsKnownValue};
ghost use Rattle.rn_looking.specs.Looks.{Urges};
ghost use Rattle.rn_looking.specs.NodeKinds.{HasItsKinds, IsKindedAt, IsKindedNode};
ghost use Rattle.rn_looking.specs.Things.{IsOnArc, IsOnArcs, FindsToken};

use crate::among::among;
use crate::best::{better, count_of, goes_on, is_best};
use crate::equated::{equated, known_worth};
use crate::known::known_in;
use crate::look::Look;
use crate::narrowed::narrowed;
use crate::parts::first_part;
use crate::views::NodeView;
use rn_calc::evaluate;
use rn_choices::Next;
use rn_growing::{Growing, Head};
use rn_model::{Expr, NetArc, Transition, finds_token, finds_values};
use rn_search::Point;
use rn_value::{NoMemory, Value};
use std::alloc::Global;

/// The value of an expression of a node, where its variables are forced and it has one.
pub(crate) fn known_value(
    alloc: Global,
    growing: &Growing<'_>,
    head: &Head,
    expr: &Expr,
) -> Result<Option<Value>, NoMemory>
    requires kinds { IsKindedAt growing.now head.now expr.now }
    ensures value { IfOk result (λ value. IfSome value
        (λ v. IsKnownValue growing.now head.now expr.now v)) }
    ensures kind { IfOk result (λ value. IfSome value
        (HasItsKinds growing.now head.now expr.now)) }
{
    let Some(known) = known_in(alloc, growing, head, expr)? else {
        return Ok(None);
    };
    evaluate(alloc, expr, &known)
}

// The value of the first part of an expression, where that is a tuple, the variables of the part are
// forced, and it has one.
fn known_first_part(
    alloc: Global,
    growing: &Growing<'_>,
    head: &Head,
    expr: &Expr,
) -> Result<Option<Value>, NoMemory>
    requires kinds { IsKindedAt growing.now head.now expr.now }
    ensures { IfOk result (λ value. IfSome value (λ v. IsKnownFirst growing.now head.now expr.now v)) }
{
    match first_part(expr) {
        Some(part) => known_value(alloc, growing, head, part),
        None => Ok(None),
    }
}

/// The arc of an index.
pub(crate) fn arc_at(transition: &Transition, k: usize) -> &NetArc
    requires { k < length transition.now.arcs }
    ensures { slice_get transition.now.arcs k ≡ Some result.now }
{
    &transition.arcs.as_slice()[k]
}

// The token of an arc with this inscription, or that it finds none, where that is known: the
// variables of the inscription are forced, or it is a variable alone that a guard asks to be the
// same as something known.
fn known_token(
    alloc: Global,
    growing: &Growing<'_>,
    head: &Head,
    transition: &Transition,
    expr: &Expr,
) -> Result<Option<Option<Value>>, NoMemory>
    requires node { IsKindedNode growing.now head.now transition.now }
    requires kinds { IsKindedAt growing.now head.now expr.now }
    ensures { IfOk result (λ told. IfSome told
        (λ w. IsTokenOf growing.now head.now transition.now expr.now w)) }
{
    if let Some(told) = known_worth(alloc, growing, head, expr)? {
        return Ok(Some(told));
    }
    match expr {
        Expr::Var(x) => equated(alloc, growing, head, transition, *x),
        _ => Ok(None),
    }
}

// Goes on with the token of an arc, which is known, or where it is known that there is none.
fn with_token(at: NodeView<'_>, k: usize, told: &Option<Value>) -> Look
    requires at { IsNodeView at }
    requires token { FindsToken at.growing.now.decisions at.head.now at.transition.now k }
    requires known { IsKnownToken at.growing.now at.head.now at.transition.now k told.now }
    ensures { NodeLooked at.entry (IsOnArc at.entry.head.now k) result }
{
    let Some(value) = told else {
        return Look::Goes(Next::Stuck, 0);
    };
    let decisions = at.growing.decisions();
    match at.problem.only_token(decisions, at.node, k, value) {
        Some(from) => Look::Goes(Next::Forced(Point::Token(at.node, k, from)), 1),
        None => Look::Goes(Next::Stuck, 0),
    }
}

// Goes on with one of the tokens of an arc whose first part is known.
fn with_first(at: NodeView<'_>, k: usize, part: &Value, first: usize) -> Look
    requires at { IsNodeView at }
    requires token { FindsToken at.growing.now.decisions at.head.now at.transition.now k }
    requires known { IsKnownTokenFirst at.growing.now at.head.now at.transition.now k part.now }
    ensures { NodeLooked at.entry (IsOnArc at.entry.head.now k) result }
{
    let decisions = at.growing.decisions();
    let range = at.problem.range_of_first(decisions, at.node, k, part);
    let of = range.end - range.start;
    Look::Goes(among(Point::Token(at.node, k, range.start), of, first), of)
}

// Looks for the token of an arc.
fn look_for_token(alloc: Global, at: NodeView<'_>, k: usize, first: usize) -> Result<Look, NoMemory>
    requires at { IsNodeView at }
    requires token { FindsToken at.growing.now.decisions at.head.now at.transition.now k }
    ensures { IfOk result (NodeLooked at.entry (IsOnArc at.entry.head.now k)) }
{
    let arc = arc_at(at.transition, k);
    if let Some(told) = known_token(alloc, at.growing, at.head, at.transition, &arc.inscription)? {
        return Ok(with_token(at, k, &told));
    }
    if let Some(part) = known_first_part(alloc, at.growing, at.head, &arc.inscription)? {
        return Ok(with_first(at, k, &part, first));
    }
    let point = Point::Token(at.node, k, 0);
    let of = at.problem.alternatives(at.growing.decisions(), point);
    Ok(Look::Goes(among(point, of, first), of))
}

// Looks at one of them.
fn look_at_arc(alloc: Global, at: NodeView<'_>, k: usize, first: usize) -> Result<Look, NoMemory>
    requires at { IsNodeView at }
    requires within { k < length at.transition.now.arcs }
    ensures { IfOk result (NodeLooked at.entry (IsOnArc at.entry.head.now k)) }
{
    let arc = arc_at(at.transition, k);
    if !finds_values(arc.kind) {
        return Ok(Look::Done);
    }
    if at.growing.was_found(at.head.path.as_slice(), k) {
        return Ok(Look::Done);
    }
    if !finds_token(arc.kind) {
        return Ok(Look::Goes(Next::Forced(Point::List(at.node, k)), 1));
    }
    look_for_token(alloc, at, k, first)
}

// Among fewer tokens than so many a choice isn't narrowed by guards.
const SMALL: usize = 16;

// Looks at the arcs of a node once more, and counts what passes its guards.
fn look_by_guards(
    alloc: Global,
    at: NodeView<'_>,
    first: usize,
    known: Look,
) -> Result<Look, NoMemory>
    requires at { IsNodeView at }
    requires urges { Urges known }
    requires looked { NodeLooked at (IsOnArcs at.head.now (length at.transition.now.arcs)) known }
    ensures { IfOk result (NodeLooked at.entry
        (IsOnArcs at.entry.head.now (length at.entry.transition.now.arcs))) }
{
    let mut best = known;
    for k in 0..at.transition.arcs.len() {
        let look = look_at_arc(alloc, at, k, first)?;
        let arc = arc_at(at.transition, k);
        let most = count_of(best);
        let look = narrowed(alloc, at, arc, look, most)?;
        best = better(best, look);
        if is_best(best) {
            return Ok(best);
        }
    }
    Ok(best)
}

/// Looks at what the arcs of a node find. Choices of a token begin with this one, round.
pub(crate) fn look_at_arcs(alloc: Global, at: NodeView<'_>, first: usize) -> Result<Look, NoMemory>
    requires { IsNodeView at }
    ensures { IfOk result (NodeLooked at.entry
        (IsOnArcs at.entry.head.now (length at.entry.transition.now.arcs))) }
{
    let mut best = Look::Done;
    let mut open = 0usize;
    for k in 0..at.transition.arcs.len() {
        let look = look_at_arc(alloc, at, k, first)?;
        if goes_on(look) {
            open = open.saturating_add(1);
        }
        best = better(best, look);
        if is_best(best) {
            return Ok(best);
        }
    }
    if open >= 2 && !at.transition.guards.is_empty() && count_of(best) >= SMALL && goes_on(best) {
        return look_by_guards(alloc, at, first, best);
    }
    Ok(best)
}
