//! The binding that the nodes of lines are.
ghost use Rattle.std.specs.Prelude.{◌≡◌, IfOk, map};
ghost use Rattle.rn_model.specs.Good.{Good};
ghost use Rattle.rn_model.specs.Firing.{renamed_value};
ghost use Rattle.rn_lines.specs.link.NodeSeen.{given};
ghost use Rattle.rn_record_reader.specs.Bindings.{unnumbered, told_node, told_binding};
ghost use Rattle.rn_record_reader.specs.link.NodesAhead.{placed};

use crate::maker::Maker;
use crate::makers::{makers_of, reference};
use crate::nodes::PlacedNode;
use rn_items::Items;
use rn_lines::ReadGiven;
use rn_model::{Binding, Node, System};
use rn_value::{InstRef, NoMemory, Vals, Value, copy_inst, list_value, tuple_value};
use std::alloc::Global;

fn unnumbered(
    alloc: Global,
    inst: &InstRef,
    makers: &[Maker],
    count: usize,
) -> Result<InstRef, NoMemory>
    ensures { IfOk result (λ i. i ≡ unnumbered makers.now count inst.now) }
{
    match inst {
        InstRef::Old(number) => reference(alloc, makers, count, *number),
        InstRef::New(_, _) => copy_inst(alloc, inst),
    }
}

#[cycle(telling)]
#[tactic(auto, using(rn_model::proofs::NumberedInstances::renaming_rules))]
fn told_value(
    alloc: Global,
    value: &Value,
    makers: &[Maker],
    count: usize,
) -> Result<Value, NoMemory>
    ensures { IfOk result (λ v. v ≡ renamed_value value.now (unnumbered makers.now count)) }
{
    match value {
        Value::Int(n) => Ok(Value::Int(*n)),
        Value::Text(text) => Ok(Value::Text(text.share()?)),
        Value::Tuple(parts) => {
            let parts = told_values(alloc, parts.as_slice(), makers, count)?;
            Ok(tuple_value(alloc, parts)?)
        }
        Value::List(elements) => {
            let elements = told_values(alloc, elements.as_slice(), makers, count)?;
            Ok(list_value(alloc, elements)?)
        }
        Value::Inst(inst) => Ok(Value::Inst(unnumbered(alloc, inst, makers, count)?)),
    }
}

#[cycle(telling)]
fn told_values(
    alloc: Global,
    values: &[Value],
    makers: &[Maker],
    count: usize,
) -> Result<Vals, NoMemory>
    ensures { IfOk result (λ vs.
        vs ≡ map (λ v. renamed_value v (unnumbered makers.now count)) values.now) }
{
    let mut told = Vec::with_capacity(alloc, values.len())?;
    for value in values {
        told.push(told_value(alloc, value, makers, count)?)?;
    }
    Ok(Items::from_vec(told))
}

fn told_given(
    alloc: Global,
    all: &[ReadGiven<'_>],
    makers: &[Maker],
    count: usize,
) -> Result<Vals, NoMemory>
    ensures { IfOk result (λ vs.
        vs ≡ map (λ g. renamed_value g.value (unnumbered makers.now count)) (map given all.now)) }
{
    let mut told = Vec::with_capacity(alloc, all.len())?;
    for given in all {
        told.push(told_value(alloc, &given.value, makers, count)?)?;
    }
    Ok(Items::from_vec(told))
}

fn told_node(
    alloc: Global,
    x: &PlacedNode<'_>,
    makers: &[Maker],
    count: usize,
) -> Result<Node, NoMemory>
    ensures { IfOk result (λ n. n ≡ told_node makers.now count (placed x.now)) }
{
    let path = Vec::from_slice(alloc, x.path.as_slice())?;
    Ok(Node {
        path: Items::from_vec(path),
        inst: reference(alloc, makers, count, x.node.inst.number)?,
        net: x.found.net,
        transition: x.found.transition,
        values: told_given(alloc, x.node.given.as_slice(), makers, count)?,
    })
}

/// The binding of nodes, where so many instances were made before.
pub(crate) fn told_binding(
    alloc: Global,
    system: &System,
    count: usize,
    nodes: &[PlacedNode<'_>],
) -> Result<Binding, NoMemory>
    requires { Good system.now }
    ensures { IfOk result (λ b. b ≡ told_binding system.now count (map placed nodes.now)) }
{
    let makers = makers_of(alloc, system, nodes)?;
    let mut told = Vec::with_capacity(alloc, nodes.len())?;
    for x in nodes {
        told.push(told_node(alloc, x, makers.as_slice(), count)?)?;
    }
    Ok(Binding {
        nodes: Items::from_vec(told),
    })
}
