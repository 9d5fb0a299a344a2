//! The instances that are live by their net.
ghost use Rattle.std.specs.Prelude.{◌≡◌, IfOk};
ghost use Rattle.rn_live.specs.Rooms.{starts_of};
ghost use Rattle.rn_live.specs.link.Marks.{FindsIn, HasRoom, is_start, is_start_below};

use crate::found::Found;
use rn_items::NoMemory;
use rn_model::System;
use rn_table::{Table, has_start};
use std::alloc::Global;

/// For each net whether one of its transitions has no uplink.
pub(crate) fn starting_nets(alloc: Global, system: &System) -> Result<Vec<bool>, NoMemory>
    ensures { IfOk result (λ starting. starting.items ≡ starts_of system.now) }
{
    let mut starting = Vec::with_capacity(alloc, system.nets.len())?;
    for net in system.nets.as_slice() {
        starting.push(has_start(net.transitions.as_slice()))?;
    }
    Ok(starting)
}

/// Finds an instance where its net has such a transition.
fn visit_start(number: u32, starting: &[bool], table: &Table, found: &mut Found)
    requires { HasRoom found.old }
    ensures { FindsIn table.now.marking
        (is_start table.now.marking starting.now number) found.old found.new }
{
    let Some(net) = table.net_of(number) else {
        return;
    };
    if let Some(true) = starting.get(net as usize) {
        found.add(table, number);
    }
}

/// Finds the instances below this number whose net has such a transition.
#[tactic(auto, using(crate::proofs::FindLemmas::still_room))]
pub(crate) fn visit_starts(next: u32, starting: &[bool], table: &Table, found: &mut Found)
    requires { HasRoom found.old }
    ensures { FindsIn table.now.marking
        (is_start_below table.now.marking starting.now next) found.old found.new }
{
    for number in 0..next {
        visit_start(number, starting, table, found);
    }
}
