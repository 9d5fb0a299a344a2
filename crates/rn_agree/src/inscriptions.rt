//! Whether the inscriptions of one node hold at its values.
ghost use Rattle.std.specs.Prelude.{◌≡◌, ◌<◌, ◌↔◌, All, IfOk, IsTrue, Some, length};
ghost use Rattle.std.specs.List.{AllZip};
ghost use Rattle.rn_value.specs.Kinds.{HasKind};
ghost use Rattle.rn_value.specs.declared.value.InstRef.TheVariants.{New as Made};
ghost use Rattle.rn_value.specs.declared.value.Value.TheVariants as Of;
ghost use Rattle.rn_model.specs.Lists.{value_beside};
ghost use Rattle.rn_model.specs.Systems.{var_kind_in};
ghost use Rattle.rn_model.specs.Evaluation.{IsTrueUnder};
ghost use Rattle.rn_model.specs.ExpressionLaws.{OperandsAreFit};
ghost use Rattle.rn_model.specs.Good.{Good};
ghost use Rattle.rn_calc.specs.FitComparisons.{ComparisonsAreFit};
ghost use Rattle.rn_calc.specs.OwnKinds.{HaveOwnKinds};
ghost use Rattle.rn_calc.specs.link.NodeValues.{lent_env};
ghost use Rattle.rn_agree.specs.link.Agreeing.{AreCreated, ArcHasValue, HoldUnder};
ghost use Rattle.rn_agree.specs.link.Agreeing.{AreFitSides, IsEqual, IsFitArc, IsFitAt};
ghost use Rattle.rn_agree.specs.link.Agreeing.{IsReadable, NodeHolds};

use crate::mentions::awaits_action;
use rn_calc::{NodeValues, Values, have_one_value, is_true, read};
use rn_model::{
    Cond, Creation, Expr, Net, NetArc, Node, System, Transition, net_at, transition_of,
};
use rn_value::{InstRef, NoMemory, Value, has_kind};
use std::alloc::Global;

// Whether each value has its variable's kind.
fn have_kinds(net: &Net, vars: &[u32], values: &[Value]) -> bool
    requires in_range { All (λ x. x < length net.now.vars) vars.now }
    requires len { length values.now ≡ length vars.now }
    ensures { IsTrue result ↔ AllZip
        (λ x v. HasKind v (var_kind_in net.now x)) vars.now values.now }
{
    for k in 0..vars.len() {
        let var = &net.vars.as_slice()[vars[k] as usize];
        if !has_kind(&values[k], &var.kind) {
            return false;
        }
    }
    true
}

fn is_equal(alloc: Global, sides: &(Expr, Expr), values: &NodeValues<'_>) -> Result<bool, NoMemory>
    requires left { OperandsAreFit (lent_env values.now) sides.now.0 }
    requires right { OperandsAreFit (lent_env values.now) sides.now.1 }
    ensures { IfOk result (λ yes. IsTrue yes ↔ IsEqual (lent_env values.now) sides.now) }
{
    let same = *values;
    have_one_value(alloc, &sides.0, values, &sides.1, &same)
}

fn equalities_hold(
    alloc: Global,
    equalities: &[(Expr, Expr)],
    values: &NodeValues<'_>,
) -> Result<bool, NoMemory>
    requires fit { All (AreFitSides (lent_env values.now)) equalities.now }
    ensures { IfOk result (λ yes. IsTrue yes ↔ All (IsEqual (lent_env values.now)) equalities.now) }
{
    for sides in equalities {
        if !is_equal(alloc, sides, values)? {
            return Ok(false);
        }
    }
    Ok(true)
}

// Whether a variable is the instance that creation `j` of the node on a path makes.
fn is_created(values: &NodeValues<'_>, x: u32, path: &[u32], j: usize) -> bool
    ensures { IsTrue result
        ↔ (value_beside (lent_env values.now).pairs x ≡ Some (Of.Inst (Made path.now j))) }
{
    match values.value(x) {
        Some(Value::Inst(InstRef::New(maker, k))) => {
            *k as usize == j && maker.as_slice() == path
        }
        _ => false,
    }
}

fn are_created(values: &NodeValues<'_>, path: &[u32], creations: &[Creation]) -> bool
    ensures { IsTrue result ↔ AreCreated path.now (lent_env values.now) creations.now }
{
    for j in 0..creations.len() {
        if !is_created(values, creations[j].var, path, j) {
            return false;
        }
    }
    true
}

fn guards_hold(alloc: Global, guards: &[Cond], values: &NodeValues<'_>) -> Result<bool, NoMemory>
    requires fit { All (ComparisonsAreFit (lent_env values.now)) guards.now }
    ensures { IfOk result (λ yes. IsTrue yes ↔ All (IsTrueUnder (lent_env values.now)) guards.now) }
{
    for guard in guards {
        if !is_true(alloc, guard, values)? {
            return Ok(false);
        }
    }
    Ok(true)
}

// Whether an arc's inscription has a value, unless it awaits an action.
fn arc_has_value(
    alloc: Global,
    transition: &Transition,
    arc: &NetArc,
    values: &NodeValues<'_>,
) -> Result<bool, NoMemory>
    requires fit { OperandsAreFit (lent_env values.now) arc.now.inscription }
    ensures { IfOk result
        (λ yes. IsTrue yes ↔ ArcHasValue transition.now (lent_env values.now) arc.now) }
{
    if awaits_action(transition, arc) {
        return Ok(true);
    }
    let value = read(alloc, &arc.inscription, values)?;
    Ok(value.is_some())
}

fn arcs_have_values(
    alloc: Global,
    transition: &Transition,
    values: &NodeValues<'_>,
) -> Result<bool, NoMemory>
    requires fit { All (IsFitArc (lent_env values.now)) transition.now.arcs }
    ensures { IfOk result (λ yes. IsTrue yes
        ↔ All (ArcHasValue transition.now (lent_env values.now)) transition.now.arcs) }
{
    for arc in transition.arcs.as_slice() {
        if !arc_has_value(alloc, transition, arc, values)? {
            return Ok(false);
        }
    }
    Ok(true)
}

fn have_own_kinds(system: &System, node: &Node) -> bool
    requires { IsReadable system.now node.now }
    ensures { IsTrue result ↔ HaveOwnKinds system.now node.now }
{
    let net = net_at(system, node.net);
    let transition = transition_of(system, node);
    have_kinds(net, transition.vars.as_slice(), node.values.as_slice())
}

// Whether the inscriptions of a transition hold in a node on a path, but for kinds.
fn inscriptions_hold(
    alloc: Global,
    transition: &Transition,
    path: &[u32],
    values: &NodeValues<'_>,
) -> Result<bool, NoMemory>
    requires fit { IsFitAt (lent_env values.now) transition.now }
    ensures { IfOk result
        (λ yes. IsTrue yes ↔ HoldUnder transition.now path.now (lent_env values.now)) }
{
    if !are_created(values, path, transition.creations.as_slice()) {
        return Ok(false);
    }
    if !equalities_hold(alloc, transition.equalities.as_slice(), values)? {
        return Ok(false);
    }
    if !guards_hold(alloc, transition.guards.as_slice(), values)? {
        return Ok(false);
    }
    arcs_have_values(alloc, transition, values)
}

/// Whether a node's values have their variables' kinds and its inscriptions hold at them. Kinds of
/// other values follow in a good system.
pub(crate) fn node_holds(alloc: Global, system: &System, node: &Node) -> Result<bool, NoMemory>
    requires good { Good system.now }
    requires readable { IsReadable system.now node.now }
    ensures { IfOk result (λ yes. IsTrue yes ↔ NodeHolds system.now node.now) }
{
    if !have_own_kinds(system, node) {
        return Ok(false);
    }
    let values = NodeValues::new(system, node);
    let transition = transition_of(system, node);
    inscriptions_hold(alloc, transition, node.path.as_slice(), &values)
}
