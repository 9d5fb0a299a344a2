//! What makes the instances of a firing.
ghost use Rattle.std.specs.Prelude.{◌≡◌, ◌≤◌, ◌++◌, OnOk, IfOk, map, length};
ghost use Rattle.std.specs.List.{enumerate_from};
ghost use Rattle.rn_model.specs.Good.{Good};
ghost use Rattle.rn_model.specs.Limits.{most_inscriptions};
ghost use Rattle.rn_record_reader.specs.Bindings.{makers_by, makers_of, reference};
ghost use Rattle.rn_record_reader.specs.link.NodesAhead.{placed};

use crate::maker::Maker;
use crate::nodes::PlacedNode;
use rn_items::Items;
use rn_model::{Creation, System, transition_at};
use rn_value::{InstRef, NoMemory};
use std::alloc::Global;

fn put_makers(
    alloc: Global,
    path: &[u32],
    creations: &[Creation],
    makers: &mut Vec<Maker>,
) -> Result<(), NoMemory>
    requires { length creations.now ≤ most_inscriptions }
    ensures { OnOk result (makers.new.items ≡ makers.old.items
        ++ map (λ c. record { path = path.now; index = c.0 }) (enumerate_from 0 creations.now)) }
{
    for index in 0..creations.len() {
        let path = Vec::from_slice(alloc, path)?;
        makers.push(Maker {
            path: Items::from_vec(path),
            index: index as u8,
        })?;
    }
    Ok(())
}

fn put_makers_by(
    alloc: Global,
    system: &System,
    x: &PlacedNode<'_>,
    makers: &mut Vec<Maker>,
) -> Result<(), NoMemory>
    requires { Good system.now }
    ensures { OnOk result (makers.new.items
        ≡ makers.old.items ++ makers_by system.now (placed x.now)) }
{
    if let Some(transition) = transition_at(system, x.found.net, x.found.transition) {
        let creations = transition.creations.as_slice();
        put_makers(alloc, x.path.as_slice(), creations, makers)?;
    }
    Ok(())
}

/// What makes the instances of nodes, in the order of their numbers.
pub(crate) fn makers_of(
    alloc: Global,
    system: &System,
    nodes: &[PlacedNode<'_>],
) -> Result<Vec<Maker>, NoMemory>
    requires { Good system.now }
    ensures { IfOk result (λ makers. makers.items ≡ makers_of system.now (map placed nodes.now)) }
{
    let mut makers = Vec::new(alloc);
    for x in nodes {
        put_makers_by(alloc, system, x, &mut makers)?;
    }
    Ok(makers)
}

/// An instance by its number, where so many were made before the firing, and its own come after.
pub(crate) fn reference(
    alloc: Global,
    makers: &[Maker],
    count: usize,
    number: u32,
) -> Result<InstRef, NoMemory>
    ensures { IfOk result (λ inst. inst ≡ reference makers.now count number) }
{
    if number as usize <= count {
        return Ok(InstRef::Old(number));
    }
    match makers.get(number as usize - count - 1) {
        Some(maker) => {
            let path = Vec::from_slice(alloc, maker.path.as_slice())?;
            Ok(InstRef::New(Items::from_vec(path), maker.index))
        }
        None => Ok(InstRef::Old(number)),
    }
}
