//! Expressions as they stand in a text, with names in place of numbers.
use rn_items::{Boxed, Items};
use rn_model::OpKind;
use rn_notation::Spot;
use rn_value::Str;

pub type PExprs = Items<PExpr>;

/// An expression, with the spot of its first token that isn't an opening parenthesis.
#[cycle(expr)]
#[derive(Debug, Drop)]
pub struct PExpr {
    pub form: PForm,
    pub spot: Spot,
}

/// What an expression is. Parentheses leave no trace.
///
/// `Tuple` is `[a,b]`, `List` is `{a,b}`, and `Cons(a, b, t)` is `{a,b:t}`.
#[cycle(expr)]
#[derive(Debug, Drop)]
pub enum PForm {
    Int(i64),
    Text(Str),
    Name(Str),
    This,
    Step,
    Tuple(PExprs),
    List(PExprs),
    Cons(PExprs, Boxed<PExpr>),
    Neg(Boxed<PExpr>),
    Op(OpKind, Boxed<PExpr>, Boxed<PExpr>),
}
