//! Where the values of variables go through equations.
use crate::event::{Edge, Event};
use rn_model::{Expr, put_vars};
use rn_value::NoMemory;
use std::alloc::Global;

// Puts that this variable of node `m` may force those of an expression of node `n` that is the same,
// and they it.
fn put_var(
    alloc: Global,
    m: usize,
    x: u32,
    expr: &Expr,
    n: usize,
    edges: &mut Vec<Edge>,
) -> Result<(), NoMemory> {
    if matches!(expr, Expr::Neg(_) | Expr::Op(_, _, _)) {
        return Ok(());
    }
    let mut vars = Vec::new(alloc);
    put_vars(expr, &mut vars)?;
    let one = Event::Forced(m, x);
    for y in vars.as_slice() {
        let other = Event::Forced(n, *y);
        edges.push(Edge {
            from: one,
            to: other,
        })?;
        edges.push(Edge {
            from: other,
            to: one,
        })?;
    }
    Ok(())
}

/// Puts the edges of an equation between an expression of node `m` and one of node `n`: of brackets,
/// those of their parts.
#[cycle(equation)]
pub(crate) fn put_equation(
    alloc: Global,
    left: &Expr,
    m: usize,
    right: &Expr,
    n: usize,
    edges: &mut Vec<Edge>,
) -> Result<(), NoMemory> {
    if let Expr::Var(y) = right {
        return put_var(alloc, n, *y, left, m, edges);
    }
    match left {
        Expr::Var(x) => put_var(alloc, m, *x, right, n, edges),
        Expr::Tuple(lefts) => match right {
            Expr::Tuple(rights) => {
                put_equations(alloc, lefts.as_slice(), m, rights.as_slice(), n, edges)
            }
            _ => Ok(()),
        },
        Expr::List(lefts) => match right {
            Expr::List(rights) => {
                put_equations(alloc, lefts.as_slice(), m, rights.as_slice(), n, edges)
            }
            _ => Ok(()),
        },
        Expr::Cons(lefts, tail) => match right {
            Expr::Cons(rights, end) => {
                put_equations(alloc, lefts.as_slice(), m, rights.as_slice(), n, edges)?;
                put_equation(alloc, tail.get(), m, end.get(), n, edges)
            }
            _ => Ok(()),
        },
        _ => Ok(()),
    }
}

/// Puts those of expressions, each with the one at its index.
#[cycle(equation)]
pub(crate) fn put_equations(
    alloc: Global,
    lefts: &[Expr],
    m: usize,
    rights: &[Expr],
    n: usize,
    edges: &mut Vec<Edge>,
) -> Result<(), NoMemory> {
    for i in 0..lefts.len() {
        if let Some(right) = rights.get(i) {
            put_equation(alloc, &lefts[i], m, right, n, edges)?;
        }
    }
    Ok(())
}
