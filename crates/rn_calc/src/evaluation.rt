//! The value of an expression.
ghost use Rattle.std.specs.Prelude.{◌≡◌, ◌≤◌, IfOk, IfSome, Some, map, option_and_then, option_map, pos};
ghost use Rattle.rn_model.specs.Lists.{value_beside};
ghost use Rattle.rn_value.specs.declared.value.Value.TheVariants as Value;
ghost use Rattle.rn_model.specs.Evaluation.{int_of, int_result, list_onto, neg_value, worth, worths};
ghost use Rattle.rn_model.specs.ExpressionLaws.{OperandsAreFit};
ghost use Rattle.rn_model.specs.Limits.{greatest_step};
ghost use Rattle.rn_calc.specs.link.Given.{env_given};
ghost use Rattle.rn_calc.specs.FitOperands.{IsNumberIfAny, IsListIfAny, PartsAreFit};

use crate::given::Given;
use crate::integers::{operate, opposite};
use crate::values::Values;
use rn_items::Items;
use rn_model::{Expr, OpKind};
use rn_value::{NoMemory, Vals, Value, copy, copy_inst, list_value, own_items, tuple_value};
use std::alloc::Global;

fn int_in(value: &Option<Value>) -> Option<i64>
    requires fit { IsNumberIfAny value.now }
    ensures { result ≡ option_and_then int_of value.now }
{
    match value {
        Some(Value::Int(n)) => Some(*n),
        Some(_) => unreachable!(),
        None => None,
    }
}

fn negate(value: &Option<Value>) -> Option<Value>
    requires fit { IsNumberIfAny value.now }
    ensures { result ≡ neg_value value.now }
{
    match int_in(value) {
        Some(n) => opposite(n),
        None => None,
    }
}

fn apply(kind: OpKind, a: Option<i64>, b: Option<i64>) -> Option<Value>
    ensures { result ≡ option_and_then (λ x. option_and_then (int_result kind x) b) a }
{
    match (a, b) {
        (Some(x), Some(y)) => operate(kind, x, y),
        _ => None,
    }
}

fn put_onto(alloc: Global, values: Vals, tail: Option<Value>) -> Result<Option<Value>, NoMemory>
    requires fit { IsListIfAny tail }
    ensures { IfOk result (λ value. value ≡ option_and_then (list_onto values) tail) }
{
    match tail {
        Some(Value::List(others)) => {
            let mut all = values.into_vec();
            let mut others = own_items(alloc, others)?.into_vec();
            all.append(&mut others)?;
            Ok(Some(list_value(alloc, Items::from_vec(all))?))
        }
        Some(_) => unreachable!(),
        None => Ok(None),
    }
}

fn variable_value<V: Values>(alloc: Global, values: &V, x: u32) -> Result<Option<Value>, NoMemory>
    ensures { IfOk result (λ value. value ≡ value_beside (V.env values.now).pairs x) }
{
    match values.value(x) {
        Some(value) => Ok(Some(copy(alloc, value)?)),
        None => Ok(None),
    }
}

fn this_value<V: Values>(alloc: Global, values: &V) -> Result<Option<Value>, NoMemory>
    ensures { IfOk result (λ value. value ≡ Some (Value.Inst (V.env values.now).this)) }
{
    Ok(Some(Value::Inst(copy_inst(alloc, values.this())?)))
}

fn step_value<V: Values>(values: &V) -> Option<Value>
    requires step { IfSome (V.env values.now).step (λ n. n ≤ greatest_step) }
    ensures { result ≡ option_map (λ n. Value.Int (pos n)) (V.env values.now).step }
{
    match values.step() {
        Some(n) => Some(Value::Int(n as i64)),
        None => None,
    }
}

fn tuple_of(alloc: Global, parts: Option<Vals>) -> Result<Option<Value>, NoMemory>
    ensures { IfOk result (λ value. value ≡ option_map (λ parts. Value.Tuple parts) parts) }
{
    match parts {
        Some(parts) => Ok(Some(tuple_value(alloc, parts)?)),
        None => Ok(None),
    }
}

fn list_of(alloc: Global, parts: Option<Vals>) -> Result<Option<Value>, NoMemory>
    ensures { IfOk result (λ value. value ≡ option_map (λ parts. Value.List parts) parts) }
{
    match parts {
        Some(parts) => Ok(Some(list_value(alloc, parts)?)),
        None => Ok(None),
    }
}

/// The value of an expression, where it has one, under anything that lends values.
#[cycle(evaluation)]
pub fn evaluate<V: Values>(
    alloc: Global,
    expr: &Expr,
    values: &V,
) -> Result<Option<Value>, NoMemory>
    requires step { IfSome (V.env values.now).step (λ n. n ≤ greatest_step) }
    requires fit { OperandsAreFit (V.env values.now) expr.now }
    ensures value { IfOk result (λ value. value ≡ worth expr.now (V.env values.now)) }
{
    match expr {
        Expr::Int(n) => Ok(Some(Value::Int(*n))),
        Expr::Text(text) => Ok(Some(Value::Text(text.share()?))),
        Expr::Var(x) => variable_value(alloc, values, *x),
        Expr::This => this_value(alloc, values),
        Expr::Step => Ok(step_value(values)),
        Expr::Tuple(parts) => tuple_of(alloc, evaluate_all(alloc, parts.as_slice(), values)?),
        Expr::List(parts) => list_of(alloc, evaluate_all(alloc, parts.as_slice(), values)?),
        Expr::Cons(parts, tail) => {
            let parts = evaluate_all(alloc, parts.as_slice(), values)?;
            join_tail(alloc, parts, tail.get(), values)
        }
        Expr::Neg(part) => Ok(negate(&evaluate(alloc, part.get(), values)?)),
        Expr::Op(kind, a, b) => {
            let x = int_in(&evaluate(alloc, a.get(), values)?);
            let y = int_in(&evaluate(alloc, b.get(), values)?);
            Ok(apply(*kind, x, y))
        }
    }
}

#[cycle(evaluation)]
fn join_tail<V: Values>(
    alloc: Global,
    parts: Option<Vals>,
    tail: &Expr,
    values: &V,
) -> Result<Option<Value>, NoMemory>
    requires step { IfSome (V.env values.now).step (λ n. n ≤ greatest_step) }
    requires fit { OperandsAreFit (V.env values.now) tail.now }
    requires list { IsListIfAny (worth tail.now (V.env values.now)) }
    ensures { IfOk result (λ value. value ≡ option_and_then
        (λ vs. option_and_then (list_onto vs) (worth tail.now (V.env values.now))) parts) }
{
    match parts {
        Some(parts) => put_onto(alloc, parts, evaluate(alloc, tail, values)?),
        None => Ok(None),
    }
}

#[cycle(evaluation)]
fn evaluate_all<V: Values>(
    alloc: Global,
    exprs: &[Expr],
    values: &V,
) -> Result<Option<Vals>, NoMemory>
    requires step { IfSome (V.env values.now).step (λ n. n ≤ greatest_step) }
    requires fit { PartsAreFit (V.env values.now) exprs.now }
    ensures { IfOk result (λ found. found ≡ worths (map worth exprs.now) (V.env values.now)) }
{
    let mut found = Vec::with_capacity(alloc, exprs.len())?;
    for expr in exprs {
        match evaluate(alloc, expr, values)? {
            Some(value) => found.push(value)?,
            None => return Ok(None),
        }
    }
    Ok(Some(Items::from_vec(found)))
}

/// The value of an expression, where it has one.
///
/// `(0 - 7) / 2` is -3, `(0 - 7) % 2` is -1, and `1 / 0` has none.
pub fn calc(alloc: Global, expr: &Expr, given: &Given) -> Result<Option<Value>, NoMemory>
    requires step { given.now.step ≤ greatest_step }
    requires fit { OperandsAreFit (env_given given.now) expr.now }
    ensures value { IfOk result (λ value. value ≡ worth expr.now (env_given given.now)) }
{
    evaluate(alloc, expr, given)
}
