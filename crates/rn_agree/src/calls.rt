//! Whether the calls of one node agree.
ghost use Rattle.std.specs.Prelude.{◌≡◌, ◌↔◌, All, IfOk, IsTrue, Some};
ghost use Rattle.std.specs.List.{AllZip};
ghost use Rattle.rn_value.specs.declared.value.Value.TheVariants as Of;
ghost use Rattle.rn_model.specs.Lists.{HaveOneValue};
ghost use Rattle.rn_model.specs.Systems.{uplink_args};
ghost use Rattle.rn_model.specs.Evaluation.{worth};
ghost use Rattle.rn_model.specs.Agreement.{CallAgrees};
ghost use Rattle.rn_model.specs.Bindings.{env_of};
ghost use Rattle.rn_model.specs.ExpressionLaws.{OperandsAreFit};
ghost use Rattle.rn_calc.specs.link.NodeValues.{lent_env};
ghost use Rattle.rn_agree.specs.link.Agreeing.{CallAgreesAt, CallsAgree, IsFitCall, IsFitNode};
ghost use Rattle.rn_agree.specs.link.Agreeing.{IsReadable};
ghost use Rattle.rn_agree.specs.Paths.{AscendByPath};

use crate::lookup::child_on;
use rn_calc::{NodeValues, have_one_value, read};
use rn_model::{Binding, Downlink, Expr, Node, System, Transition, transition_of};
use rn_value::{InstRef, NoMemory, Value};
use std::alloc::Global;

fn same_inst(a: &InstRef, b: &InstRef) -> bool
    ensures { IsTrue result ↔ (a.now ≡ b.now) }
{
    match (a, b) {
        (InstRef::Old(m), InstRef::Old(n)) => m == n,
        (InstRef::New(p, j), InstRef::New(q, k)) => j == k && p.as_slice() == q.as_slice(),
        _ => false,
    }
}

fn names(value: &Value, inst: &InstRef) -> bool
    ensures { IsTrue result ↔ (value.now ≡ Of.Inst inst.now) }
{
    match value {
        Value::Inst(named) => same_inst(named, inst),
        _ => false,
    }
}

// Whether an expression's value is this instance.
fn leads_to(
    alloc: Global,
    target: &Expr,
    values: &NodeValues<'_>,
    inst: &InstRef,
) -> Result<bool, NoMemory>
    requires fit { OperandsAreFit (lent_env values.now) target.now }
    ensures { IfOk result
        (λ yes. IsTrue yes ↔ (worth target.now (lent_env values.now) ≡ Some (Of.Inst inst.now))) }
{
    match read(alloc, target, values)? {
        Some(value) => Ok(names(value.get(), inst)),
        None => Ok(false),
    }
}

// Whether arguments that stand beside each other have one value, and none stands alone.
fn args_agree(
    alloc: Global,
    args: &[Expr],
    values: &NodeValues<'_>,
    others: &[Expr],
    other_values: &NodeValues<'_>,
) -> Result<bool, NoMemory>
    requires fit { All (OperandsAreFit (lent_env values.now)) args.now }
    requires other_fit { All (OperandsAreFit (lent_env other_values.now)) others.now }
    ensures { IfOk result (λ yes. IsTrue yes ↔ AllZip
        (λ e f. HaveOneValue (worth e (lent_env values.now)) (worth f (lent_env other_values.now)))
        args.now others.now) }
{
    if args.len() != others.len() {
        return Ok(false);
    }
    for k in 0..args.len() {
        if !have_one_value(alloc, &args[k], values, &others[k], other_values)? {
            return Ok(false);
        }
    }
    Ok(true)
}

fn uplink_args(transition: &Transition) -> &[Expr]
    ensures { result.now ≡ uplink_args transition.now }
{
    match &transition.uplink {
        Some(uplink) => uplink.args.as_slice(),
        None => &[],
    }
}

fn call_agrees(
    alloc: Global,
    system: &System,
    caller: &Node,
    downlink: &Downlink,
    child: &Node,
) -> Result<bool, NoMemory>
    requires caller { IsReadable system.now caller.now }
    requires child { IsReadable system.now child.now }
    requires fit { IsFitCall (env_of system.now caller.now) downlink.now }
    requires child_fit { IsFitNode system.now child.now }
    ensures { IfOk result
        (λ yes. IsTrue yes ↔ CallAgrees system.now caller.now downlink.now child.now) }
{
    let values = NodeValues::new(system, caller);
    if !leads_to(alloc, &downlink.target, &values, &child.inst)? {
        return Ok(false);
    }
    let others = uplink_args(transition_of(system, child));
    let other_values = NodeValues::new(system, child);
    args_agree(
        alloc,
        downlink.args.as_slice(),
        &values,
        others,
        &other_values,
    )
}

// Whether the call by downlink `i` agrees with the child that is there.
fn call_agrees_at(
    alloc: Global,
    system: &System,
    binding: &Binding,
    caller: &Node,
    i: u32,
    downlink: &Downlink,
) -> Result<bool, NoMemory>
    requires ascending { AscendByPath binding.now.nodes }
    requires nodes { All (IsReadable system.now) binding.now.nodes }
    requires own { IsReadable system.now caller.now }
    requires fit { All (IsFitNode system.now) binding.now.nodes }
    requires own_fit { IsFitCall (env_of system.now caller.now) downlink.now }
    ensures { IfOk result
        (λ yes. IsTrue yes ↔ CallAgreesAt system.now binding.now caller.now i downlink.now) }
{
    match child_on(binding, caller.path.as_slice(), i) {
        Some(child) => call_agrees(alloc, system, caller, downlink, child),
        None => Ok(true),
    }
}

/// Whether each call of a node agrees with the child that it calls.
pub(crate) fn calls_agree(
    alloc: Global,
    system: &System,
    binding: &Binding,
    caller: &Node,
) -> Result<bool, NoMemory>
    requires ascending { AscendByPath binding.now.nodes }
    requires nodes { All (IsReadable system.now) binding.now.nodes }
    requires own { IsReadable system.now caller.now }
    requires fit { All (IsFitNode system.now) binding.now.nodes }
    requires own_fit { IsFitNode system.now caller.now }
    ensures { IfOk result (λ yes. IsTrue yes ↔ CallsAgree system.now binding.now caller.now) }
{
    let downlinks = transition_of(system, caller).downlinks.as_slice();
    for i in 0..downlinks.len() {
        if !call_agrees_at(alloc, system, binding, caller, i as u32, &downlinks[i])? {
            return Ok(false);
        }
    }
    Ok(true)
}
