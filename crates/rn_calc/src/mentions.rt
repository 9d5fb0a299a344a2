//! Which variables stand in an expression.
ghost use Rattle.std.specs.Prelude.{◌≡◌, map, nat_eq};
ghost use Rattle.std.specs.List.{list_any, concat};
ghost use Rattle.rn_model.specs.Systems.{vars_in, holds_action_var};

use rn_model::{Expr, Transition};

// Whether one of these variables stands in an expression.
#[cycle(mentions)]
fn mentions(expr: &Expr, vars: &[u32]) -> bool
    ensures { result ≡ list_any (λ x. list_any (λ y. nat_eq y x) vars.now) (vars_in expr.now) }
{
    match expr {
        Expr::Var(x) => vars.contains(x),
        Expr::Tuple(parts) => mention(parts.as_slice(), vars),
        Expr::List(parts) => mention(parts.as_slice(), vars),
        Expr::Cons(parts, tail) => mention(parts.as_slice(), vars) || mentions(tail.get(), vars),
        Expr::Neg(part) => mentions(part.get(), vars),
        Expr::Op(_, a, b) => mentions(a.get(), vars) || mentions(b.get(), vars),
        _ => false,
    }
}

#[cycle(mentions)]
fn mention(exprs: &[Expr], vars: &[u32]) -> bool
    ensures { result ≡ list_any (λ x. list_any (λ y. nat_eq y x) vars.now)
        (concat (map vars_in exprs.now)) }
{
    for expr in exprs {
        if mentions(expr, vars) {
            return true;
        }
    }
    false
}

/// Whether an expression holds one of a transition's action variables.
pub fn holds_action_var(transition: &Transition, expr: &Expr) -> bool
    ensures { result ≡ holds_action_var transition.now expr.now }
{
    mentions(expr, transition.action_vars.as_slice())
}
