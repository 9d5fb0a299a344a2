//! What guards of a node ask a variable to be the same as. Where that is known, an arc whose
//! inscription is this variable has its token looked up, in place of a choice. A guard with `||`
//! asks for nothing so, since another part of it may be true (`docs/SEARCH.md`, 'What it does
//! next').
ghost use Rattle.std.specs.Prelude.{◌≡◌, IfOk, IfSome, IsTrue};
ghost use Rattle.rn_model.specs.declared.expr.Expr.TheVariants as E;
ghost use Rattle.rn_looking.specs.Equating.{IsSide, IsEquatedIn, IsEquatedBy, IsEquated};
ghost use Rattle.rn_looking.specs.Forced.{IsKnownWorth};
ghost use Rattle.rn_looking.specs.NodeKinds.{ArePartsAt, IsGuardAt, IsKindedAt, IsKindedNode};

use crate::known::known_in;
use crate::parts::only_list;
use rn_calc::evaluate;
use rn_growing::{Growing, Head};
use rn_model::{CompareKind, Cond, Expr, Simple, Transition};
use rn_value::{NoMemory, Value};
use std::alloc::Global;

// Whether an expression is a variable alone.
fn is_var(expr: &Expr, x: u32) -> bool
    ensures { IsTrue result → (expr.now ≡ E.Var x) }
{
    match expr {
        Expr::Var(y) => *y == x,
        _ => false,
    }
}

// What a comparison asks a variable to be the same as.
fn side_of(simple: &Simple, x: u32) -> Option<&Expr>
    ensures { IfSome result (λ e. IsSide simple.now x e.now) }
{
    let Simple::Compare(CompareKind::Same, a, b) = simple else {
        return None;
    };
    if is_var(a, x) {
        return Some(b);
    }
    if is_var(b, x) {
        return Some(a);
    }
    None
}

/// The value of an expression of a node, or that it has none, where its variables are forced.
pub(crate) fn known_worth(
    alloc: Global,
    growing: &Growing<'_>,
    head: &Head,
    expr: &Expr,
) -> Result<Option<Option<Value>>, NoMemory>
    requires kinds { IsKindedAt growing.now head.now expr.now }
    ensures { IfOk result (λ told. IfSome told (λ w. IsKnownWorth growing.now head.now expr.now w)) }
{
    match known_in(alloc, growing, head, expr)? {
        Some(known) => Ok(Some(evaluate(alloc, expr, &known)?)),
        None => Ok(None),
    }
}

// The same by one of these conditions, which all have to be true.
fn equated_in(
    alloc: Global,
    growing: &Growing<'_>,
    head: &Head,
    simples: &[Simple],
    x: u32,
) -> Result<Option<Option<Value>>, NoMemory>
    requires kinds { ArePartsAt growing.now head.now simples.now }
    ensures { IfOk result (λ told. IfSome told (λ w. IsEquatedIn growing.now head.now simples.now x w)) }
{
    for simple in simples {
        let Some(side) = side_of(simple, x) else {
            continue;
        };
        if let Some(told) = known_worth(alloc, growing, head, side)? {
            return Ok(Some(told));
        }
    }
    Ok(None)
}

// The same by a guard that is one list of conditions.
fn equated_by(
    alloc: Global,
    growing: &Growing<'_>,
    head: &Head,
    guard: &Cond,
    x: u32,
) -> Result<Option<Option<Value>>, NoMemory>
    requires kinds { IsGuardAt growing.now head.now guard.now }
    ensures { IfOk result (λ told. IfSome told (λ w. IsEquatedBy growing.now head.now guard.now x w)) }
{
    match only_list(guard) {
        Some(simples) => equated_in(alloc, growing, head, simples, x),
        None => Ok(None),
    }
}

/// The value of an expression, or that it has none, where its variables are forced and a guard asks
/// that this variable is the same. So the variable has that value in each binding to which the
/// decisions lead.
pub(crate) fn equated(
    alloc: Global,
    growing: &Growing<'_>,
    head: &Head,
    transition: &Transition,
    x: u32,
) -> Result<Option<Option<Value>>, NoMemory>
    requires node { IsKindedNode growing.now head.now transition.now }
    ensures { IfOk result (λ told. IfSome told (λ w. IsEquated growing.now head.now transition.now x w)) }
{
    for guard in transition.guards.as_slice() {
        if let Some(told) = equated_by(alloc, growing, head, guard, x)? {
            return Ok(Some(told));
        }
    }
    Ok(None)
}
