//! The instances that a firing makes.
ghost use Rattle.std.specs.Prelude.{◌≡◌, ◌++◌, All, IfOk, OnOk, map};
ghost use Rattle.rn_model.specs.Bindings.{IsNodeOf};
ghost use Rattle.rn_model.specs.Firing.{creations_of, too_many};

use rn_items::{Items, NoMemory};
use rn_model::limits::GREATEST_INSTANCE;
use rn_model::{Binding, Creation, Nums, System, transition_of};
use std::alloc::Global;

/// Whether a firing that makes so many instances gives one of them a number above the greatest,
/// where `next` is the first that it gives.
pub fn gives_too_many(next: u32, made: usize) -> bool
    ensures { result ≡ too_many next made }
{
    let free = (GREATEST_INSTANCE + 1).saturating_sub(next);
    made > free as usize
}

fn add_nets(nets: &mut Nums, creations: &[Creation]) -> Result<(), NoMemory>
    ensures { OnOk result (nets.new ≡ nets.old ++ map (λ c. c.net) creations.now) }
{
    for creation in creations {
        nets.push(creation.net)?;
    }
    Ok(())
}

/// The nets of the instances that a binding makes, in the order in which these get their numbers.
pub fn nets_made(alloc: Global, system: &System, binding: &Binding) -> Result<Nums, NoMemory>
    requires nodes { All (IsNodeOf system.now) binding.now.nodes }
    ensures { IfOk result (λ nets. nets ≡ map (λ c. c.net) (creations_of system.now binding.now)) }
{
    let mut nets = Items::new(alloc);
    let nodes = binding.nodes.as_slice();
    for node in nodes {
        add_nets(&mut nets, transition_of(system, node).creations.as_slice())?;
    }
    Ok(nets)
}
