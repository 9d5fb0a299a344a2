//! Single nodes beside a system.
ghost use Rattle.std.specs.Prelude.{◌↔◌, IsTrue};
ghost use Rattle.rn_model.specs.Bindings.{IsNodeOf, IsStart, HasUplinkOf};

use rn_model::{Node, System, transition_of, transitions_of};
use rn_value::InstRef;

/// Whether a node's net and transition are in the system, and it has one value for each of the
/// transition's variables.
pub(crate) fn is_node_of(system: &System, node: &Node) -> bool
    ensures { IsTrue result ↔ IsNodeOf system.now node.now }
{
    match transitions_of(system, node.net).get(node.transition as usize) {
        Some(transition) => node.values.len() == transition.vars.len(),
        None => false,
    }
}

/// Whether a node may start a firing.
pub(crate) fn is_start(system: &System, node: &Node) -> bool
    requires { IsNodeOf system.now node.now }
    ensures { IsTrue result ↔ IsStart system.now node.now }
{
    match node.inst {
        InstRef::Old(_) => transition_of(system, node).uplink.is_none(),
        InstRef::New(_, _) => false,
    }
}

/// Whether a node's transition has an uplink of this channel.
pub(crate) fn answers(system: &System, node: &Node, channel: u32) -> bool
    requires { IsNodeOf system.now node.now }
    ensures { IsTrue result ↔ HasUplinkOf system.now node.now channel }
{
    match &transition_of(system, node).uplink {
        Some(uplink) => uplink.channel == channel,
        None => false,
    }
}
