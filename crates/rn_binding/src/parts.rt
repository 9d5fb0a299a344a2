//! All items of a binding, in the order of its nodes.
ghost use Rattle.std.specs.Prelude.{◌≡◌, ◌++◌, All, OnOk, IfOk, map, flat_map};
ghost use Rattle.std.specs.List.{enumerate_from};
ghost use Rattle.rn_model.specs.Bindings.{IsNodeOf};
ghost use Rattle.rn_model.specs.Derivation.{computed_at, sites_of, node_items};
ghost use Rattle.rn_binding.specs.link.Parts.{item_of, found_at};

use crate::applications::applications_of;
use crate::headed::Headed;
use crate::part::Part;
use rn_model::{NetArc, System, Transition, finds_values, transition_of};
use rn_value::NoMemory;
use std::alloc::Global;

// Puts what the arcs of a node find.
fn put_found<'a>(
    node: &'a Headed<'a>,
    arcs: &'a [NetArc],
    parts: &mut Vec<Part<'a>>,
) -> Result<(), NoMemory>
    ensures { OnOk result (map item_of parts.new.items ≡ map item_of parts.old.items
        ++ flat_map (found_at node.now) (enumerate_from 0 arcs.now)) }
{
    for k in 0..arcs.len() {
        if finds_values(arcs[k].kind) {
            parts.push(Part::Found(node, k, &arcs[k]))?;
        }
    }
    Ok(())
}

// Puts the operator applications of a node.
fn put_computed<'a>(
    alloc: Global,
    node: &'a Headed<'a>,
    transition: &'a Transition,
    parts: &mut Vec<Part<'a>>,
) -> Result<(), NoMemory>
    ensures { OnOk result (map item_of parts.new.items ≡ map item_of parts.old.items
        ++ flat_map (computed_at node.now) (sites_of transition.now)) }
{
    let found = applications_of(alloc, transition)?;
    for application in found {
        parts.push(Part::Computed(node, application))?;
    }
    Ok(())
}

// Puts the items of a node.
fn put_node<'a>(
    alloc: Global,
    system: &'a System,
    node: &'a Headed<'a>,
    parts: &mut Vec<Part<'a>>,
) -> Result<(), NoMemory>
    requires { IsNodeOf system.now node.now }
    ensures { OnOk result (map item_of parts.new.items ≡ map item_of parts.old.items
        ++ node_items system.now node.now) }
{
    let transition = transition_of(system, node.node());
    parts.push(Part::Entry(node))?;
    put_found(node, transition.arcs.as_slice(), parts)?;
    put_computed(alloc, node, transition, parts)
}

/// The items of a binding, each node's entry first.
pub(crate) fn parts_of<'a>(
    alloc: Global,
    system: &'a System,
    nodes: &'a [Headed<'a>],
) -> Result<Vec<Part<'a>>, NoMemory>
    requires { All (IsNodeOf system.now) nodes.now }
    ensures { IfOk result
        (λ parts. map item_of parts.items ≡ flat_map (node_items system.now) nodes.now) }
{
    let mut parts = Vec::with_capacity(alloc, nodes.len())?;
    for i in 0..nodes.len() {
        put_node(alloc, system, &nodes[i], &mut parts)?;
    }
    Ok(parts)
}
