//! Looking at the operator applications of a node. Unification doesn't compute, so each value comes
//! in by a decision, once the variables are forced. There is one value at most, and without one the
//! branch ends, so an application is never a choice (`docs/SEARCH.md`, 'What it does next').
ghost use Rattle.std.specs.Prelude.{◌≡◌, ◌↔◌, ℤ, IfOk, IfSome, Some, length, map, slice_get};
ghost use Rattle.rn_value.specs.declared.value.Value.TheVariants as V;
ghost use Rattle.rn_model.specs.Evaluation.{worth};
ghost use Rattle.rn_model.specs.ExpressionLaws.{OperandsAreFit};
ghost use Rattle.rn_looking.specs.Knowing.{known_env};
ghost use Rattle.rn_search.specs.Points.{holes_of};
ghost use Rattle.rn_binding.specs.link.Applications.{application_of};
ghost use Rattle.rn_looking.specs.link.Views.{IsNodeView, NodeLooked};
ghost use Rattle.rn_looking.specs.Things.{IsOnHole, IsOnHoles};

use crate::best::{better, is_best};
use crate::known::{Known, known_in};
use crate::look::Look;
use crate::views::NodeView;
use rn_binding::Application;
use rn_calc::evaluate;
use rn_choices::Next;
use rn_model::Expr;
use rn_search::Point;
use rn_value::{NoMemory, Value};
use std::alloc::Global;

// The whole number that a value is.
fn number_in(value: Value) -> Option<i64>
    ensures { (n : ℤ) → (result ≡ Some n) ↔ (value ≡ V.Int n) }
{
    match value {
        Value::Int(n) => Some(n),
        _ => None,
    }
}

// The whole number that an expression is, by what is known.
fn number_of(alloc: Global, form: &Expr, known: &Known<'_>) -> Result<Option<i64>, NoMemory>
    requires { OperandsAreFit (known_env known.now) form.now }
    ensures { IfOk result (λ found. (n : ℤ) → (found ≡ Some n)
        ↔ (worth form.now (known_env known.now) ≡ Some (V.Int n))) }
{
    match evaluate(alloc, form, known)? {
        Some(value) => Ok(number_in(value)),
        None => Ok(None),
    }
}

// Looks at one of them.
fn look_at_result(
    alloc: Global,
    at: NodeView<'_>,
    k: usize,
    application: &Application<'_>,
) -> Result<Look, NoMemory>
    requires at { IsNodeView at }
    requires is { slice_get (holes_of at.transition.now) k ≡ Some (application_of application.now) }
    ensures { IfOk result (NodeLooked at.entry
        (IsOnHole at.entry.transition.now at.entry.head.now k)) }
{
    let path = at.head.path.as_slice();
    let way = application.way.as_slice();
    if at.growing.was_computed(path, application.site, way) {
        return Ok(Look::Done);
    }
    let Some(known) = known_in(alloc, at.growing, at.head, application.form)? else {
        return Ok(Look::Waits);
    };
    match number_of(alloc, application.form, &known)? {
        Some(n) => Ok(Look::Goes(Next::Forced(Point::Result(at.node, k, n)), 1)),
        None => Ok(Look::Goes(Next::Stuck, 0)),
    }
}

// From so many operator applications on a look begins with those beside the one that was found last.
const MANY: usize = 8;

// Looks at the two operator applications beside the one that a look found last. It counts where
// nothing better can come.
fn look_near_result(
    alloc: Global,
    at: NodeView<'_>,
    found: &[Application<'_>],
    near: &mut usize,
) -> Result<Option<Look>, NoMemory>
    requires at { IsNodeView at }
    requires are { map application_of found.now ≡ holes_of at.transition.now }
    ensures { IfOk result (λ best. IfSome best (NodeLooked at.entry
        (IsOnHoles at.entry.transition.now at.entry.head.now
        (length (holes_of at.entry.transition.now))))) }
{
    if found.len() < MANY {
        return Ok(None);
    }
    let beside = [near.saturating_sub(1), near.saturating_add(1)];
    for i in 0..2 {
        let k = beside[i];
        if k < found.len() {
            let look = look_at_result(alloc, at, k, &found[k])?;
            if is_best(look) {
                *near = k;
                return Ok(Some(look));
            }
        }
    }
    Ok(None)
}

/// Looks at the operator applications of a node, which are these.
pub(crate) fn look_at_results(
    alloc: Global,
    at: NodeView<'_>,
    found: &[Application<'_>],
    near: &mut usize,
) -> Result<Look, NoMemory>
    requires at { IsNodeView at }
    requires are { map application_of found.now ≡ holes_of at.transition.now }
    ensures { IfOk result (NodeLooked at.entry
        (IsOnHoles at.entry.transition.now at.entry.head.now
        (length (holes_of at.entry.transition.now)))) }
{
    if let Some(nearest) = look_near_result(alloc, at, found, near)? {
        return Ok(nearest);
    }
    let mut best = Look::Done;
    for k in 0..found.len() {
        let look = look_at_result(alloc, at, k, &found[k])?;
        best = better(best, look);
        if is_best(best) {
            *near = k;
            return Ok(best);
        }
    }
    Ok(best)
}
