//! Parts of a system, looked up by their numbers, and what the kinds of arcs find. A look that asks
//! for nothing answers with an option, and one that asks for a part that is there has no such case.
ghost use Rattle.std.specs.Prelude.{◌≡◌, ◌<◌, MatchOption, length};
ghost use Rattle.rn_model.specs.Derivation.{finds_token, finds_values};
ghost use Rattle.rn_model.specs.Systems.{empty_net, empty_transition, is_output};
ghost use Rattle.rn_model.specs.Systems.{net_at, transition_at, transition_of};

use crate::binding::Node;
use crate::system::{ArcKind, Net, Place, System, Transition};

/// The net of a number, where the system has it.
pub fn find_net(system: &System, net: u32) -> Option<&Net>
    ensures { MatchOption result (net_at system.now net ≡ empty_net)
        (λ n. n.now ≡ net_at system.now net) }
{
    system.nets.get(net as usize)
}

/// The net of a number.
pub fn net_at(system: &System, net: u32) -> &Net
    requires { net < length system.now.nets }
    ensures { result.now ≡ net_at system.now net }
{
    &system.nets.as_slice()[net as usize]
}

/// The places of a net, and none where there is no such net.
pub fn places_of(system: &System, net: u32) -> &[Place]
    ensures { result.now ≡ (net_at system.now net).places }
{
    match find_net(system, net) {
        Some(net) => net.places.as_slice(),
        None => &[],
    }
}

/// The transitions of a net, and none where there is no such net.
pub fn transitions_of(system: &System, net: u32) -> &[Transition]
    ensures { result.now ≡ (net_at system.now net).transitions }
{
    match find_net(system, net) {
        Some(net) => net.transitions.as_slice(),
        None => &[],
    }
}

/// A transition of a net, by their numbers, where the system has it.
pub fn transition_at(system: &System, net: u32, transition: u32) -> Option<&Transition>
    ensures { MatchOption result (transition_at system.now net transition ≡ empty_transition)
        (λ t. t.now ≡ transition_at system.now net transition) }
{
    transitions_of(system, net).get(transition as usize)
}

/// The transition that occurs in a node, where the system has it.
pub fn find_transition<'a>(system: &'a System, node: &Node) -> Option<&'a Transition>
    ensures { MatchOption result (transition_of system.now node.now ≡ empty_transition)
        (λ t. t.now ≡ transition_of system.now node.now) }
{
    transition_at(system, node.net, node.transition)
}

/// The transition that occurs in a node.
pub fn transition_of<'a>(system: &'a System, node: &Node) -> &'a Transition
    requires net { node.now.net < length system.now.nets }
    requires transition { node.now.transition < length
        (net_at system.now node.now.net).transitions }
    ensures { result.now ≡ transition_of system.now node.now }
{
    &net_at(system, node.net).transitions.as_slice()[node.transition as usize]
}

/// Whether an arc finds a token.
pub fn finds_token(kind: ArcKind) -> bool
    ensures { result ≡ finds_token kind }
{
    matches!(kind, ArcKind::Input | ArcKind::Test | ArcKind::Reserve)
}

/// Whether an arc finds a token, or a list.
pub fn finds_values(kind: ArcKind) -> bool
    ensures { result ≡ finds_values kind }
{
    finds_token(kind) || matches!(kind, ArcKind::Clear)
}

/// Whether an arc puts the value of its inscription.
pub fn is_output(kind: ArcKind) -> bool
    ensures { result ≡ is_output kind }
{
    matches!(kind, ArcKind::Output | ArcKind::FlexOutput)
}
