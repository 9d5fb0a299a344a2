//! How a node stands among the others: its children, its caller, and the creation of its instance.
ghost use Rattle.std.specs.Prelude.{◌≡◌, ◌<◌, ◌≤◌, ◌↔◌, ◌∷◌, ◌++◌, [], All, IsTrue, Some};
ghost use Rattle.std.specs.Prelude.{length};
ghost use Rattle.rn_model.specs.declared.binding.Node.{Node as Occurrence};
ghost use Rattle.rn_model.specs.Bindings.{IsNodeOf, HasUplinkOf, IsOfCreation, node_at};
ghost use Rattle.rn_model.specs.Limits.{most_nodes};
ghost use Rattle.rn_agree.specs.Paths.{AscendByPath};
ghost use Rattle.rn_agree.specs.link.Parts.{HasChildren, HasCaller, IsLinked};

use crate::lookup::{child_on, node_on};
use crate::nodes::answers;
use rn_model::{Binding, Node, System, transition_of};
use rn_value::InstRef;

// Whether the child by downlink `i` of the node on a path is there and answers a channel.
fn has_child(system: &System, binding: &Binding, parent: &[u32], i: u32, channel: u32) -> bool
    requires ascending { AscendByPath binding.now.nodes }
    requires nodes { All (IsNodeOf system.now) binding.now.nodes }
    ensures { IsTrue result
        ↔ ((node : Occurrence) × (node_at binding.now (parent.now ++ i ∷ []) ≡ Some node)
        × HasUplinkOf system.now node channel) }
{
    match child_on(binding, parent, i) {
        Some(child) => answers(system, child, channel),
        None => false,
    }
}

// Each downlink has a child of its own, so there are no more downlinks than nodes.
fn has_children(system: &System, binding: &Binding, node: &Node) -> bool
    requires many { length binding.now.nodes ≤ most_nodes }
    requires ascending { AscendByPath binding.now.nodes }
    requires nodes { All (IsNodeOf system.now) binding.now.nodes }
    requires own { IsNodeOf system.now node.now }
    ensures { IsTrue result ↔ HasChildren system.now binding.now node.now }
{
    let downlinks = transition_of(system, node).downlinks.as_slice();
    if downlinks.len() > binding.nodes.len() {
        return false;
    }
    for i in 0..downlinks.len() {
        let channel = downlinks[i].channel;
        if !has_child(system, binding, node.path.as_slice(), i as u32, channel) {
            return false;
        }
    }
    true
}

fn has_caller(system: &System, binding: &Binding, node: &Node) -> bool
    requires ascending { AscendByPath binding.now.nodes }
    requires nodes { All (IsNodeOf system.now) binding.now.nodes }
    ensures { IsTrue result ↔ HasCaller system.now binding.now node.now }
{
    let Some((last, front)) = node.path.as_slice().split_last() else {
        return true;
    };
    match node_on(binding, front) {
        Some(caller) => (*last as usize) < transition_of(system, caller).downlinks.len(),
        None => false,
    }
}

fn is_of_creation(system: &System, binding: &Binding, node: &Node) -> bool
    requires ascending { AscendByPath binding.now.nodes }
    requires nodes { All (IsNodeOf system.now) binding.now.nodes }
    ensures { IsTrue result ↔ IsOfCreation system.now binding.now node.now }
{
    let InstRef::New(path, j) = &node.inst else {
        return true;
    };
    let Some(maker) = node_on(binding, path.as_slice()) else {
        return false;
    };
    match transition_of(system, maker).creations.get(*j as usize) {
        Some(creation) => creation.net == node.net,
        None => false,
    }
}

/// Whether each downlink of a node has its child, some downlink calls it unless its path is empty,
/// and its instance is of its net's creation where it is new.
pub(crate) fn is_linked(system: &System, binding: &Binding, node: &Node) -> bool
    requires many { length binding.now.nodes ≤ most_nodes }
    requires ascending { AscendByPath binding.now.nodes }
    requires nodes { All (IsNodeOf system.now) binding.now.nodes }
    requires own { IsNodeOf system.now node.now }
    ensures { IsTrue result ↔ IsLinked system.now binding.now node.now }
{
    has_children(system, binding, node)
        && has_caller(system, binding, node)
        && is_of_creation(system, binding, node)
}
