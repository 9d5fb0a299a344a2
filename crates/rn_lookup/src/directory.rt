//! The names of a system, to be looked up.
ghost use Rattle.std.specs.Prelude.{◌≡◌, ◌<◌, ◌^◌, All, IfOk, length};
ghost use Rattle.rn_model.specs.declared.system.System.{System as Whole};
ghost use Rattle.rn_model.specs.Systems.{net_at};
ghost use Rattle.rn_lookup.specs.Found.{net_named, transition_named, place_named};
ghost use Rattle.rn_lookup.specs.link.Tables.{AreFew, IsOwnOf, AreOwnOf, IsDirectoryOf};

use crate::tables::{NameTable, table_of};
use rn_model::{Net, System};
use rn_value::NoMemory;
use std::alloc::Global;

/// The transitions and the places of a net by name.
#[derive(Drop)]
pub(crate) struct OwnNames {
    pub(crate) transitions: NameTable,
    pub(crate) places: NameTable,
}

/// The nets of a system by name, and the transitions and places of each. A look-up goes by an
/// ordered map.
#[derive(Drop)]
pub struct Directory {
    pub(crate) nets: NameTable,
    pub(crate) own: Vec<OwnNames>,
}

fn own_names(alloc: Global, net: &Net) -> Result<OwnNames, NoMemory>
    requires transitions { length net.now.transitions < 2 ^ 32 }
    requires places { length net.now.places < 2 ^ 32 }
    ensures { IfOk result (λ own. IsOwnOf net.now own) }
{
    Ok(OwnNames {
        transitions: table_of(alloc, net.transitions.as_slice())?,
        places: table_of(alloc, net.places.as_slice())?,
    })
}

fn all_own_names(alloc: Global, nets: &[Net]) -> Result<Vec<OwnNames>, NoMemory>
    requires { All AreFew nets.now }
    ensures { IfOk result (λ own. AreOwnOf nets.now own.items) }
{
    let mut own = Vec::with_capacity(alloc, nets.len())?;
    for net in nets {
        own.push(own_names(alloc, net)?)?;
    }
    Ok(own)
}

impl Directory {
    /// The names of a system, which has fewer than 2^32 nets, each with fewer transitions and
    /// places than that, as a good one.
    pub fn new(alloc: Global, system: &System) -> Result<Directory, NoMemory>
        requires nets { length system.now.nets < 2 ^ 32 }
        requires own { All AreFew system.now.nets }
        ensures { IfOk result (λ directory. IsDirectoryOf system.now directory) }
    {
        Ok(Directory {
            nets: table_of(alloc, system.nets.as_slice())?,
            own: all_own_names(alloc, system.nets.as_slice())?,
        })
    }

    /// The number of the net with this name.
    pub(crate) fn net(&self, alloc: Global, name: &[u8]) -> Result<Option<u32>, NoMemory>
        ensures { IfOk result (λ number. (system : Whole) → IsDirectoryOf system self.now →
            number ≡ net_named system name.now) }
    {
        self.nets.number(alloc, name)
    }

    /// The number of the transition with this name in a net.
    pub(crate) fn transition(
        &self,
        alloc: Global,
        net: u32,
        name: &[u8],
    ) -> Result<Option<u32>, NoMemory>
        ensures { IfOk result (λ number. (system : Whole) → IsDirectoryOf system self.now →
            number ≡ transition_named (net_at system net) name.now) }
    {
        match self.own.get(net as usize) {
            Some(own) => own.transitions.number(alloc, name),
            None => Ok(None),
        }
    }

    /// The number of the place with this name in a net.
    pub(crate) fn place(
        &self,
        alloc: Global,
        net: u32,
        name: &[u8],
    ) -> Result<Option<u32>, NoMemory>
        ensures { IfOk result (λ number. (system : Whole) → IsDirectoryOf system self.now →
            number ≡ place_named (net_at system net) name.now) }
    {
        match self.own.get(net as usize) {
            Some(own) => own.places.number(alloc, name),
            None => Ok(None),
        }
    }
}
