//! The nets of the instances of a log, and their names.
ghost use Rattle.std.specs.Prelude.{◌≡◌, ◌++◌, All, IfOk, OnOk};
ghost use Rattle.rn_model.specs.Systems.{main_net};
ghost use Rattle.rn_moves.specs.link.Connecting.{HasEntryNodes};
ghost use Rattle.rn_moves.specs.MovesText.{names_of, nets_in, nets_of, net_numbered};

use rn_acts::nets_made;
use rn_items::NoMemory;
use rn_model::{Entry, System};
use rn_record::push_name;
use rn_value::Names;
use std::alloc::Global;

/// Adds the nets of the instances that an entry makes.
fn add_nets(
    alloc: Global,
    system: &System,
    entry: &Entry,
    nets: &mut Vec<u32>,
) -> Result<(), NoMemory>
    requires { HasEntryNodes system.now entry.now }
    ensures { OnOk result (nets.new.items ≡ nets.old.items ++ nets_in system.now entry.now) }
{
    match entry {
        Entry::Fire {
            worker: _,
            binding,
            outs: _,
        } => {
            let made = nets_made(alloc, system, binding)?;
            nets.extend_from_slice(made.as_slice())?;
            Ok(())
        }
        Entry::End(_) => Ok(()),
    }
}

/// The nets of all instances of a log, in the order of their numbers, from 1, where this is the net of
/// the first.
pub(crate) fn nets_of(
    alloc: Global,
    system: &System,
    main: u32,
    entries: &[Entry],
) -> Result<Vec<u32>, NoMemory>
    requires main { main ≡ main_net system.now }
    requires nodes { All (HasEntryNodes system.now) entries.now }
    ensures { IfOk result (λ nets. nets.items ≡ nets_of system.now entries.now) }
{
    let mut nets = Vec::new(alloc);
    nets.push(main)?;
    for entry in entries {
        add_nets(alloc, system, entry, &mut nets)?;
    }
    Ok(nets)
}

/// The names of these nets.
pub(crate) fn names_of(alloc: Global, system: &System, nets: &[u32]) -> Result<Names, NoMemory>
    ensures { IfOk result (λ names. names ≡ names_of system.now nets.now) }
{
    let mut names = Names::new(alloc);
    for net in nets {
        push_name(alloc, system, *net, &mut names)?;
    }
    Ok(names)
}

/// The net of the instance with this number.
pub(crate) fn net_numbered(nets: &[u32], number: u32) -> u32
    ensures { result ≡ net_numbered nets.now number }
{
    match nets.get((number as usize).saturating_sub(1)) {
        Some(net) => *net,
        None => 0,
    }
}
