//! Whether variables are forced.
ghost use Rattle.std.specs.Prelude.{◌↔◌, All, IfOk, IsTrue};
ghost use Rattle.rn_model.specs.Systems.{vars_in};
ghost use Rattle.rn_model.specs.Bindings.{IsNodeOf};
ghost use Rattle.rn_binding.specs.link.Passing.{IsVarForcedOn, AreVarsForced};

use rn_growing::Growing;
use rn_model::{Expr, Node, System, put_vars, transition_of};
use rn_value::NoMemory;
use std::alloc::Global;

/// Whether all variables of an expression of the node on a path are forced.
pub(crate) fn is_expr_forced(
    alloc: Global,
    growing: &Growing<'_>,
    path: &[u32],
    expr: &Expr,
) -> Result<bool, NoMemory>
    ensures { IfOk result (λ yes. IsTrue yes
        ↔ All (IsVarForcedOn growing.now path.now) (vars_in expr.now)) }
{
    let mut vars = Vec::new(alloc);
    put_vars(expr, &mut vars)?;
    are_vars_forced(alloc, growing, path, vars.as_slice())
}

// Whether these variables of the node on a path are forced.
fn are_vars_forced(
    alloc: Global,
    growing: &Growing<'_>,
    path: &[u32],
    vars: &[u32],
) -> Result<bool, NoMemory>
    ensures { IfOk result (λ yes. IsTrue yes ↔ All (IsVarForcedOn growing.now path.now) vars.now) }
{
    for x in vars {
        if !growing.is_forced(alloc, path, *x)? {
            return Ok(false);
        }
    }
    Ok(true)
}

/// Whether each variable of each node is forced.
pub(crate) fn are_all_forced(
    alloc: Global,
    system: &System,
    growing: &Growing<'_>,
    nodes: &[Node],
) -> Result<bool, NoMemory>
    requires { All (IsNodeOf system.now) nodes.now }
    ensures { IfOk result (λ yes. IsTrue yes ↔ All (AreVarsForced system.now growing.now) nodes.now) }
{
    for node in nodes {
        let vars = transition_of(system, node).vars.as_slice();
        if !are_vars_forced(alloc, growing, node.path.as_slice(), vars)? {
            return Ok(false);
        }
    }
    Ok(true)
}
