//! Values of expressions that are lent where they stand already.
ghost use Rattle.std.specs.Prelude.{◌≡◌, ◌≤◌, ◌↔◌, IfOk, IfSome, IsTrue, option_map, Some};
ghost use Rattle.rn_model.specs.Evaluation.{worth};
ghost use Rattle.rn_model.specs.ExpressionLaws.{OperandsAreFit};
ghost use Rattle.rn_model.specs.Limits.{greatest_step};
ghost use Rattle.rn_model.specs.Lists.{HaveOneValue};
ghost use Rattle.rn_calc.specs.Readings.{seen};

use crate::evaluation::evaluate;
use crate::values::Values;
use rn_model::Expr;
use rn_value::{NoMemory, Value, same};
use std::alloc::Global;

/// A value that stands somewhere, or one that was made.
#[derive(Debug, Drop)]
pub enum Reading<'a> {
    Lent(&'a Value),
    Made(Value),
}

impl<'a> Reading<'a> {
    /// The value.
    pub fn get(&self) -> &Value
        ensures { result.now ≡ seen self.now }
    {
        match self {
            Reading::Lent(value) => value,
            Reading::Made(value) => value,
        }
    }
}

/// The value of an expression, where it has one. That of a variable isn't copied.
pub fn read<'a, V: Values>(
    alloc: Global,
    expr: &Expr,
    values: &'a V,
) -> Result<Option<Reading<'a>>, NoMemory>
    requires step { IfSome (V.env values.now).step (λ n. n ≤ greatest_step) }
    requires fit { OperandsAreFit (V.env values.now) expr.now }
    ensures { IfOk result (λ r. option_map seen r ≡ worth expr.now (V.env values.now)) }
{
    match expr {
        Expr::Var(x) => match values.value(*x) {
            Some(value) => Ok(Some(Reading::Lent(value))),
            None => Ok(None),
        },
        _ => match evaluate(alloc, expr, values)? {
            Some(value) => Ok(Some(Reading::Made(value))),
            None => Ok(None),
        },
    }
}

// Whether both are there, with one value.
fn are_one(one: &Option<Reading>, other: &Option<Reading>) -> bool
    ensures { IsTrue result
        ↔ HaveOneValue (option_map seen one.now) (option_map seen other.now) }
{
    match (one, other) {
        (Some(v), Some(w)) => same(v.get(), w.get()),
        _ => false,
    }
}

/// Whether two expressions, each read under its own values, have one and the same value.
pub fn have_one_value<V: Values, W: Values>(
    alloc: Global,
    a: &Expr,
    values: &V,
    b: &Expr,
    others: &W,
) -> Result<bool, NoMemory>
    requires step { IfSome (V.env values.now).step (λ n. n ≤ greatest_step) }
    requires other_step { IfSome (W.env others.now).step (λ n. n ≤ greatest_step) }
    requires fit { OperandsAreFit (V.env values.now) a.now }
    requires other_fit { OperandsAreFit (W.env others.now) b.now }
    ensures { IfOk result (λ yes. IsTrue yes
        ↔ HaveOneValue (worth a.now (V.env values.now)) (worth b.now (W.env others.now))) }
{
    let one = read(alloc, a, values)?;
    let other = read(alloc, b, others)?;
    Ok(are_one(&one, &other))
}
