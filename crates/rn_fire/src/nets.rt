//! The nets of the instances of a run.
ghost use Rattle.std.specs.Prelude.{◌≡◌, ◌<◌, ◌≤◌, ◌+◌, ◌^◌, ◌++◌, ◌∷◌, [], IfOk, length};
ghost use Rattle.std.specs.Prelude.{vec_capacity};
ghost use Rattle.rn_model.specs.Systems.{main_net};
ghost use Rattle.rn_fire.specs.Nets.{nets_logged};

use crate::state::SimState;
use rn_items::NoMemory;
use rn_model::System;
use rn_table::main_net_of;
use std::alloc::Global;

/// The net of instance 1.
pub(crate) fn first_nets(alloc: Global, system: &System) -> Result<Vec<u32>, NoMemory>
    requires { length system.now.nets < 2 ^ 32 }
    ensures { IfOk result (λ nets. nets.items ≡ main_net system.now ∷ []) }
{
    let main = main_net_of(system) as u32;
    let mut nets = Vec::new(alloc);
    nets.push(main)?;
    Ok(nets)
}

/// The nets of new instances come to the end, where there is room for them.
pub(crate) fn add_nets(nets: &mut Vec<u32>, made: &[u32])
    requires { length nets.old.items + length made.now ≤ vec_capacity nets.old }
    ensures { nets.new.items ≡ nets.old.items ++ made.now }
{
    for net in made {
        nets.push_reserved(*net);
    }
}

impl SimState {
    /// The index of the net of each instance that was made, from the one with number 1, also of
    /// those that were dropped. The nets of those that the firing of a fault would have made come
    /// last.
    pub fn nets(&self) -> &[u32]
        ensures { result.now ≡ nets_logged self.now }
    {
        self.nets.as_slice()
    }
}
