//! Operations on whole numbers of 64 bits.
ghost use Rattle.std.specs.Prelude.{◌≡◌, neg_ℤ};
ghost use Rattle.rn_model.specs.Evaluation.{int_result, int_value};

use rn_model::OpKind;
use rn_value::Value;

// The remainder by -1 is 0, also that of the least number, whose quotient leaves 64 bits.
#[tactic(auto, using(crate::proofs::FittingLemmas::fitting_rules))]
fn remainder(x: i64, y: i64) -> Option<Value>
    ensures { result ≡ int_result OpKind.Rem x y }
{
    if y == -1 {
        return Some(Value::Int(0));
    }
    match x.checked_rem(y) {
        Some(n) => Some(Value::Int(n)),
        None => None,
    }
}

#[tactic(auto, using(crate::proofs::FittingLemmas::fitting_rules))]
fn quotient(x: i64, y: i64) -> Option<Value>
    ensures { result ≡ int_result OpKind.Div x y }
{
    match x.checked_div(y) {
        Some(n) => Some(Value::Int(n)),
        None => None,
    }
}

#[tactic(auto, using(crate::proofs::FittingLemmas::fitting_rules))]
pub(crate) fn operate(kind: OpKind, x: i64, y: i64) -> Option<Value>
    ensures { result ≡ int_result kind x y }
{
    match kind {
        OpKind::Add => match x.checked_add(y) {
            Some(n) => Some(Value::Int(n)),
            None => None,
        },
        OpKind::Sub => match x.checked_sub(y) {
            Some(n) => Some(Value::Int(n)),
            None => None,
        },
        OpKind::Mul => match x.checked_mul(y) {
            Some(n) => Some(Value::Int(n)),
            None => None,
        },
        OpKind::Div => quotient(x, y),
        OpKind::Rem => remainder(x, y),
    }
}

#[tactic(auto, using(crate::proofs::FittingLemmas::fitting_rules))]
pub(crate) fn opposite(n: i64) -> Option<Value>
    ensures { result ≡ int_value (neg_ℤ n) }
{
    match n.checked_neg() {
        Some(n) => Some(Value::Int(n)),
        None => None,
    }
}
