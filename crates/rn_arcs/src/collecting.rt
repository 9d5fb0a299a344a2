//! The walk over the nodes and arcs of a binding.
ghost use Rattle.std.specs.Prelude.{◌≡◌, ◌++◌, IfOk, OnOk};
ghost use Rattle.rn_arcs.specs.FitInscriptions.{InscriptionsAreFit, IsFitArc, IsFitNode};
ghost use Rattle.rn_arcs.specs.link.Asks.{arc_asks, node_asks, binding_asks};

use crate::ask::Ask;
use rn_calc::{NodeValues, Values, evaluate};
use rn_items::NoMemory;
use rn_model::{Binding, NetArc, Node, System, find_transition, is_output};
use rn_value::{InstRef, copy_inst};
use std::alloc::Global;

/// Adds what one arc asks, where its inscription has a value. Outputs are left out at will.
fn add_ask<V: Values>(
    alloc: Global,
    asks: &mut Vec<Ask>,
    values: &V,
    inst: &InstRef,
    arc: &NetArc,
    outputs: bool,
) -> Result<(), NoMemory>
    requires step { (V.env values.now).step ≡ None }
    requires fit { IsFitArc (V.env values.now) arc.now }
    ensures ok { OnOk result (asks.new.items
        ≡ asks.old.items ++ arc_asks outputs (V.env values.now) inst.now arc.now) }
{
    if !outputs && is_output(arc.kind) {
        return Ok(());
    }
    if let Some(value) = evaluate(alloc, &arc.inscription, values)? {
        asks.push(Ask {
            inst: copy_inst(alloc, inst)?,
            place: arc.place,
            kind: arc.kind,
            value,
        })?;
    }
    Ok(())
}

/// Adds what the arcs of a node ask.
fn add_node(
    alloc: Global,
    asks: &mut Vec<Ask>,
    system: &System,
    node: &Node,
    outputs: bool,
) -> Result<(), NoMemory>
    requires fit { IsFitNode system.now node.now }
    ensures ok { OnOk result
        (asks.new.items ≡ asks.old.items ++ node_asks outputs system.now node.now) }
{
    let Some(transition) = find_transition(system, node) else {
        return Ok(());
    };
    let values = NodeValues::new(system, node);
    for arc in transition.arcs.as_slice() {
        add_ask(alloc, asks, &values, &node.inst, arc, outputs)?;
    }
    Ok(())
}

/// What all arcs of a binding ask, node by node.
pub(crate) fn asks_of(
    alloc: Global,
    system: &System,
    binding: &Binding,
    outputs: bool,
) -> Result<Vec<Ask>, NoMemory>
    requires fit { InscriptionsAreFit system.now binding.now }
    ensures { IfOk result (λ asks. asks.items ≡ binding_asks outputs system.now binding.now) }
{
    let mut asks = Vec::new(alloc);
    for node in binding.nodes.as_slice() {
        add_node(alloc, &mut asks, system, node, outputs)?;
    }
    Ok(asks)
}
