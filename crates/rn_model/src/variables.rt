//! The variables of expressions.
ghost use Rattle.std.specs.Prelude.{◌≡◌, ◌++◌, OnOk, map};
ghost use Rattle.std.specs.List.{concat};
ghost use Rattle.rn_model.specs.Systems.{vars_in};

use crate::expr::Expr;
use rn_value::NoMemory;

/// Puts the variables of an expression, in the order of the text.
#[cycle(vars)]
pub fn put_vars(expr: &Expr, vars: &mut Vec<u32>) -> Result<(), NoMemory>
    ensures { OnOk result (vars.new.items ≡ vars.old.items ++ vars_in expr.now) }
{
    match expr {
        Expr::Var(x) => {
            vars.push(*x)?;
            Ok(())
        }
        Expr::Tuple(parts) => put_vars_of(parts.as_slice(), vars),
        Expr::List(parts) => put_vars_of(parts.as_slice(), vars),
        Expr::Cons(parts, tail) => {
            put_vars_of(parts.as_slice(), vars)?;
            put_vars(tail.get(), vars)
        }
        Expr::Neg(part) => put_vars(part.get(), vars),
        Expr::Op(_, a, b) => {
            put_vars(a.get(), vars)?;
            put_vars(b.get(), vars)
        }
        _ => Ok(()),
    }
}

/// Puts the variables of expressions, one after another.
#[cycle(vars)]
pub fn put_vars_of(exprs: &[Expr], vars: &mut Vec<u32>) -> Result<(), NoMemory>
    ensures { OnOk result (vars.new.items ≡ vars.old.items ++ concat (map vars_in exprs.now)) }
{
    for expr in exprs {
        put_vars(expr, vars)?;
    }
    Ok(())
}
