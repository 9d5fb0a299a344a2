//! The slots of unknowns, each found by its key. Slots of one key are chained, the newest first,
//! and each is compared with what is looked for, since two unknowns may have one key. They stand in
//! the order in which they came, so taking decisions back cuts them off at the end.
ghost use Rattle.std.specs.Prelude.{◌≡◌, ◌++◌, ◌∷◌, [], IfOk, None, OnErr, OnOk, length, take};
ghost use Rattle.rn_growing.specs.link.Indexed.{is_slot};
ghost use Rattle.rn_growing.specs.link.Keys.{unknown_key};
ghost use Rattle.rn_growing.specs.link.Layouts.{id_of};

use crate::keys::{hole_key, path_key, stir};
use crate::slot::{Slot, Unknown, are_same};
use rn_chains::Chains;
use rn_value::NoMemory;
use std::alloc::Global;
use std::marker::Model;

fn unknown_key(path: &[u32], unknown: &Unknown) -> usize
    ensures { result ≡ unknown_key path.now unknown.now }
{
    match unknown {
        Unknown::Var(x) => stir(stir(path_key(path), 7), *x as usize),
        Unknown::Hole(site, way) => hole_key(path, *site, way.as_slice()),
    }
}

/// Whether a slot is that of an unknown of the node on a path.
fn is_slot(slot: &Slot, path: &[u32], unknown: &Unknown) -> bool
    ensures { result ≡ is_slot path.now unknown.now slot.now }
{
    are_same(&slot.unknown, unknown) && slot.path.as_slice() == path
}

/// The slots of unknowns, in the order in which they came, no two of one unknown.
#[derive(Drop)]
pub(crate) struct Slots {
    slots: Vec<Slot>,
    keys: Chains,
}

impl Model for Slots {
    ghost use Rattle.std.specs.Prelude.{List};
    ghost use Rattle.rn_growing.specs.declared.slot.Slot.{Slot};
    ghost use Rattle.rn_growing.specs.link.Indexed.{AreIndexed};

    ghost Value = { List Slot };

    ghost view = { λ s. s.slots.items };

    ghost invariant = { λ s. AreIndexed s.slots.items s.keys };
}

impl Slots {
    pub(crate) fn new(alloc: Global) -> Slots
        ensures { result ≡ [] }
    {
        Slots {
            slots: Vec::new(alloc),
            keys: Chains::new(alloc),
        }
    }

    /// No slots, with room for so many.
    pub(crate) fn with_room(alloc: Global, slots: usize) -> Result<Slots, NoMemory>
        ensures { IfOk result (λ made. made ≡ []) }
    {
        Ok(Slots {
            slots: Vec::with_capacity(alloc, slots)?,
            keys: Chains::with_room(alloc, slots)?,
        })
    }

    pub(crate) fn len(&self) -> usize
        ensures { result ≡ length self.now }
    {
        self.slots.len()
    }

    /// The id of an unknown, if it has a slot.
    pub(crate) fn id(&self, path: &[u32], unknown: &Unknown) -> Option<usize>
        ensures { result ≡ id_of self.now path.now unknown.now }
    {
        let mut left = self.keys.last(unknown_key(path, unknown));
        while left > 0 {
            let slot = &self.slots[left - 1];
            if is_slot(slot, path, unknown) {
                return Some(slot.id);
            }
            left = self.keys.before(left - 1);
        }
        None
    }

    /// The slot of an unknown that has none yet.
    pub(crate) fn push(&mut self, alloc: Global, slot: Slot) -> Result<(), NoMemory>
        requires { id_of self.old slot.path slot.unknown ≡ None }
        ensures pushed { OnOk result (self.new ≡ self.old ++ slot ∷ []) }
        ensures err { OnErr result (self.new ≡ self.old) }
    {
        self.slots.reserve(1)?;
        self.keys
            .push(alloc, unknown_key(slot.path.as_slice(), &slot.unknown))?;
        self.slots.push(slot)?;
        Ok(())
    }

    /// Takes back all slots but the first `to`.
    pub(crate) fn truncate(&mut self, to: usize)
        ensures { self.new ≡ take to self.old }
    {
        self.keys.truncate(to);
        self.slots.truncate(to);
    }
}
