//! Kinds, constants, capacities and expressions with numbers in place of names.
ghost use Rattle.std.specs.Prelude.{◌≡◌, IfOk, map};
ghost use Rattle.rn_numbered.specs.link.NumbersFound.{AreFew};
ghost use Rattle.rn_numbered.specs.Numbered.{kind_of, value_of, capacity_of, expr_of, number_in};

use crate::numbers::NameNumbers;
use rn_inscript::{PExpr, PForm};
use rn_items::{Boxed, Items};
use rn_model::limits::GREATEST_CAPACITY;
use rn_model::{Expr, Exprs};
use rn_net::{PConst, PConstForm, PKind, PKindForm, PMax};
use rn_value::{Kind, Kinds, NoMemory, Vals, Value, list_value, shared_text, tuple_value};
use std::alloc::Global;

/// The kind without its spots.
#[cycle(kind)]
pub fn kind_of(alloc: Global, kind: &PKind) -> Result<Kind, NoMemory>
    ensures { IfOk result (λ made. made ≡ kind_of kind.now) }
{
    match &kind.form {
        PKindForm::Int => Ok(Kind::Int),
        PKindForm::Text => Ok(Kind::Text),
        PKindForm::Tuple(parts) => Ok(Kind::Tuple(kinds_of(alloc, parts.as_slice())?)),
        PKindForm::List(part) => Ok(Kind::List(Boxed::new(alloc, kind_of(alloc, part.get())?)?)),
        PKindForm::Net => Ok(Kind::Net),
    }
}

#[cycle(kind)]
pub fn kinds_of(alloc: Global, kinds: &[PKind]) -> Result<Kinds, NoMemory>
    ensures { IfOk result (λ made. made ≡ map kind_of kinds.now) }
{
    let mut made = Vec::with_capacity(alloc, kinds.len())?;
    for kind in kinds {
        made.push(kind_of(alloc, kind)?)?;
    }
    Ok(Items::from_vec(made))
}

/// The value of a constant.
#[cycle(value)]
pub(crate) fn value_of(alloc: Global, constant: &PConst) -> Result<Value, NoMemory>
    ensures { IfOk result (λ made. made ≡ value_of constant.now) }
{
    match &constant.form {
        PConstForm::Int(n) => Ok(Value::Int(*n)),
        PConstForm::Text(text) => Ok(Value::Text(shared_text(alloc, text)?)),
        PConstForm::Tuple(parts) => Ok(tuple_value(alloc, values_of(alloc, parts.as_slice())?)?),
        PConstForm::List(parts) => Ok(list_value(alloc, values_of(alloc, parts.as_slice())?)?),
    }
}

#[cycle(value)]
pub fn values_of(alloc: Global, constants: &[PConst]) -> Result<Vals, NoMemory>
    ensures { IfOk result (λ made. made ≡ map value_of constants.now) }
{
    let mut made = Vec::with_capacity(alloc, constants.len())?;
    for constant in constants {
        made.push(value_of(alloc, constant)?)?;
    }
    Ok(Items::from_vec(made))
}

/// The capacity of a place, where it has one.
pub fn capacity_of(max: Option<PMax>) -> Option<u32>
    ensures { result ≡ capacity_of max }
{
    match max {
        Some(max) => Some(max.number.unsigned_abs().min(GREATEST_CAPACITY as u64) as u32),
        None => None,
    }
}

/// The expression with numbers in place of names, where variables have these.
#[cycle(expr)]
pub(crate) fn expr_of(alloc: Global, e: &PExpr, vars: &NameNumbers) -> Result<Expr, NoMemory>
    requires { AreFew vars.now }
    ensures { IfOk result (λ made. made ≡ expr_of e.now (number_in vars.now)) }
{
    match &e.form {
        PForm::Int(n) => Ok(Expr::Int(*n)),
        PForm::Text(text) => Ok(Expr::Text(shared_text(alloc, text)?)),
        PForm::Name(name) => Ok(Expr::Var(vars.number(name))),
        PForm::This => Ok(Expr::This),
        PForm::Step => Ok(Expr::Step),
        PForm::Tuple(parts) => Ok(Expr::Tuple(exprs_of(alloc, parts.as_slice(), vars)?)),
        PForm::List(parts) => Ok(Expr::List(exprs_of(alloc, parts.as_slice(), vars)?)),
        PForm::Cons(parts, tail) => {
            let parts = exprs_of(alloc, parts.as_slice(), vars)?;
            Ok(Expr::Cons(parts, Boxed::new(alloc, expr_of(alloc, tail.get(), vars)?)?))
        }
        PForm::Neg(a) => Ok(Expr::Neg(Boxed::new(alloc, expr_of(alloc, a.get(), vars)?)?)),
        PForm::Op(op, a, b) => {
            let a = Boxed::new(alloc, expr_of(alloc, a.get(), vars)?)?;
            Ok(Expr::Op(*op, a, Boxed::new(alloc, expr_of(alloc, b.get(), vars)?)?))
        }
    }
}

#[cycle(expr)]
pub(crate) fn exprs_of(alloc: Global, es: &[PExpr], vars: &NameNumbers) -> Result<Exprs, NoMemory>
    requires { AreFew vars.now }
    ensures { IfOk result (λ made. made
        ≡ map (λ numbered. numbered (number_in vars.now)) (map expr_of es.now)) }
{
    let mut made = Vec::with_capacity(alloc, es.len())?;
    for e in es {
        made.push(expr_of(alloc, e, vars)?)?;
    }
    Ok(Items::from_vec(made))
}
