//! Whether a binding has the shape.
ghost use Rattle.std.specs.Prelude.{◌≡◌, ◌≤◌, ◌↔◌, [], All, IsTrue, Some, length};
ghost use Rattle.rn_model.specs.declared.binding.Node.{Node as Occurrence};
ghost use Rattle.rn_model.specs.Bindings.{IsNodeOf, IsStart, Shape, node_at};
ghost use Rattle.rn_model.specs.Limits.{most_nodes};
ghost use Rattle.rn_agree.specs.Paths.{AscendByPath};
ghost use Rattle.rn_agree.specs.link.Parts.{IsInRange, IsLinked};

use crate::links::is_linked;
use crate::lookup::node_on;
use crate::nodes::{is_node_of, is_start};
use rn_model::limits::MOST_NODES;
use rn_model::{Binding, Node, System};

// Whether each path is below the next one.
fn ascend(nodes: &[Node]) -> bool
    ensures { IsTrue result ↔ AscendByPath nodes.now }
{
    for k in 1..nodes.len() {
        let path = nodes[k - 1].path.as_slice();
        if !path.cmp(nodes[k].path.as_slice()).is_lt() {
            return false;
        }
    }
    true
}

fn is_in_range(system: &System, depth: u32, node: &Node) -> bool
    ensures { IsTrue result ↔ IsInRange system.now depth node.now }
{
    node.path.len() <= depth as usize && is_node_of(system, node)
}

// Whether each node is one of the system, and its path no longer than the depth.
fn are_in_range(system: &System, depth: u32, nodes: &[Node]) -> bool
    ensures { IsTrue result ↔ All (IsInRange system.now depth) nodes.now }
{
    for node in nodes {
        if !is_in_range(system, depth, node) {
            return false;
        }
    }
    true
}

fn has_start(system: &System, binding: &Binding) -> bool
    requires ascending { AscendByPath binding.now.nodes }
    requires nodes { All (IsNodeOf system.now) binding.now.nodes }
    ensures { IsTrue result
        ↔ ((node : Occurrence) × (node_at binding.now [] ≡ Some node) × IsStart system.now node) }
{
    match node_on(binding, &[]) {
        Some(node) => is_start(system, node),
        None => false,
    }
}

fn are_linked(system: &System, binding: &Binding) -> bool
    requires many { length binding.now.nodes ≤ most_nodes }
    requires ascending { AscendByPath binding.now.nodes }
    requires nodes { All (IsNodeOf system.now) binding.now.nodes }
    ensures { IsTrue result ↔ All (IsLinked system.now binding.now) binding.now.nodes }
{
    let nodes = binding.nodes.as_slice();
    for node in nodes {
        if !is_linked(system, binding, node) {
            return false;
        }
    }
    true
}

/// Whether a binding has the shape within a depth. It may be any binding, also of any numbers and
/// paths, with nodes missing or doubled, and of any system.
///
/// It takes no memory, and looks for each node's children and caller by halving.
pub fn has_shape(system: &System, depth: u32, binding: &Binding) -> bool
    ensures { IsTrue result ↔ Shape system.now binding.now depth }
{
    let nodes = binding.nodes.as_slice();
    if nodes.len() > MOST_NODES {
        return false;
    }
    if !ascend(nodes) {
        return false;
    }
    if !are_in_range(system, depth, nodes) {
        return false;
    }
    has_start(system, binding) && are_linked(system, binding)
}
