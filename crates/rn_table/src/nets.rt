//! What a system says of its nets.
ghost use Rattle.std.specs.Prelude.{◌≡◌, ◌≤◌, is_none, length};
ghost use Rattle.std.specs.List.{list_any};
ghost use Rattle.rn_model.specs.Systems.{may_start, main_net};

use rn_model::{System, Transition, transitions_of};

/// Whether a net has a transition without uplink.
pub fn starts(system: &System, net: u32) -> bool
    ensures { result ≡ may_start system.now net }
{
    has_start(transitions_of(system, net))
}

/// Whether one of these transitions has no uplink.
pub fn has_start(transitions: &[Transition]) -> bool
    ensures { result ≡ list_any (λ t. is_none t.uplink) transitions.now }
{
    for transition in transitions {
        if transition.uplink.is_none() {
            return true;
        }
    }
    false
}

/// The number of the net `main`, and 0 where there is none.
pub fn main_net_of(system: &System) -> usize
    ensures net { result ≡ main_net system.now }
    ensures bound { result ≤ length system.now.nets }
{
    for (i, net) in system.nets.as_slice().iter().enumerate() {
        if net.name.as_str() == "main" {
            return i;
        }
    }
    0
}
