//! Parts of a guard that are known not to be true. A guard that joins its parts by `&&` alone fails
//! with any of them, so a branch may end before the other variables are forced. Of a guard with
//! `||` nothing is said, since another part may be true (`docs/SEARCH.md`, 'What it does next').
ghost use Rattle.std.specs.Prelude.{◌≡◌, ◌↔◌, IfOk, IsTrue, Some, true};
ghost use Rattle.rn_model.specs.declared.expr.Simple.TheVariants as S;
ghost use Rattle.rn_search.specs.Parting.{answer_of};
ghost use Rattle.rn_looking.specs.NodeKinds.{ArePartsAt, IsGuardAt, IsKindedAt};
ghost use Rattle.rn_looking.specs.UntrueParts.{IsUntrue, HasUntrue, IsPartlyUntrue};

use crate::equated::known_worth;
use crate::known::known_in_guard;
use crate::parts::only_list;
use rn_calc::is_true;
use rn_growing::{Growing, Head};
use rn_model::{CompareKind, Cond, Expr, Simple};
use rn_value::{NoMemory, Value, cmp};
use std::alloc::Global;

// Whether two values are there, and compare so.
fn is_so(kind: CompareKind, v: &Option<Value>, w: &Option<Value>) -> bool
    ensures { IsTrue result ↔ (answer_of kind v.now w.now ≡ Some true) }
{
    let (Some(v), Some(w)) = (v, w) else {
        return false;
    };
    match (kind, v, w) {
        (CompareKind::Same, _, _) => cmp(v, w).is_eq(),
        (CompareKind::Differs, _, _) => !cmp(v, w).is_eq(),
        (CompareKind::Less, Value::Int(x), Value::Int(y)) => *x < *y,
        (CompareKind::AtMost, Value::Int(x), Value::Int(y)) => *x <= *y,
        (CompareKind::Greater, Value::Int(x), Value::Int(y)) => *y < *x,
        (CompareKind::AtLeast, Value::Int(x), Value::Int(y)) => *y <= *x,
        _ => false,
    }
}

// Whether a comparison is known not to be true.
fn is_untrue_comparison(
    alloc: Global,
    growing: &Growing<'_>,
    head: &Head,
    kind: CompareKind,
    left: &Expr,
    right: &Expr,
) -> Result<bool, NoMemory>
    requires left { IsKindedAt growing.now head.now left.now }
    requires right { IsKindedAt growing.now head.now right.now }
    ensures { IfOk result (λ yes. IsTrue yes
        → IsUntrue growing.now head.now (S.Compare kind left.now right.now)) }
{
    let Some(v) = known_worth(alloc, growing, head, left)? else {
        return Ok(false);
    };
    let Some(w) = known_worth(alloc, growing, head, right)? else {
        return Ok(false);
    };
    Ok(!is_so(kind, &v, &w))
}

// Whether a condition is known to be true.
fn is_known_true(
    alloc: Global,
    growing: &Growing<'_>,
    head: &Head,
    cond: &Cond,
) -> Result<bool, NoMemory>
    requires kinds { IsGuardAt growing.now head.now cond.now }
    ensures { IfOk result (λ yes. IsTrue yes → IsUntrue growing.now head.now (S.Not cond.now)) }
{
    match known_in_guard(alloc, growing, head, cond)? {
        Some(known) => is_true(alloc, cond, &known),
        None => Ok(false),
    }
}

// Whether one of these conditions is known not to be true.
fn has_untrue(
    alloc: Global,
    growing: &Growing<'_>,
    head: &Head,
    simples: &[Simple],
) -> Result<bool, NoMemory>
    requires kinds { ArePartsAt growing.now head.now simples.now }
    ensures { IfOk result (λ yes. IsTrue yes → HasUntrue growing.now head.now simples.now) }
{
    for simple in simples {
        let untrue = match simple {
            Simple::Compare(kind, left, right) => {
                is_untrue_comparison(alloc, growing, head, *kind, left, right)?
            }
            Simple::Not(cond) => is_known_true(alloc, growing, head, cond)?,
        };
        if untrue {
            return Ok(true);
        }
    }
    Ok(false)
}

/// Whether a guard is one list of conditions, and one of them is known not to be true.
pub(crate) fn is_partly_untrue(
    alloc: Global,
    growing: &Growing<'_>,
    head: &Head,
    guard: &Cond,
) -> Result<bool, NoMemory>
    requires kinds { IsGuardAt growing.now head.now guard.now }
    ensures { IfOk result (λ yes. IsTrue yes → IsPartlyUntrue growing.now head.now guard.now) }
{
    match only_list(guard) {
        Some(simples) => has_untrue(alloc, growing, head, simples),
        None => Ok(false),
    }
}
