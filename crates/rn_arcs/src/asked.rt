//! What a binding asks of one place of an instance.
ghost use Rattle.std.specs.Prelude.{◌≡◌, OnOk};
ghost use Rattle.rn_model.specs.Lists.{ordered_values};
ghost use Rattle.rn_arcs.specs.link.Groups.{with_arc, fresh, in_order};

use crate::values::{append, elements_of};
use rn_items::{Items, NoMemory};
use rn_model::ArcKind;
use rn_value::{InstRef, Vals, Value, copy, sort};
use std::alloc::Global;
use std::mem;

/// What is asked of a place, each list in the order in which the arcs came until it is sorted.
#[derive(Debug, Drop)]
pub(crate) struct Asked {
    pub inst: InstRef,
    pub place: u32,
    pub taken: Vals,
    pub tested: Vals,
    pub inhibited: Vals,
    pub cleared: Items<Vals>,
    pub put: Vals,
}

impl Asked {
    /// Nothing is asked of the place yet.
    pub(crate) fn new(alloc: Global, inst: InstRef, place: u32) -> Asked
        ensures { result ≡ fresh (inst, place) }
    {
        Asked {
            inst,
            place,
            taken: Items::new(alloc),
            tested: Items::new(alloc),
            inhibited: Items::new(alloc),
            cleared: Items::new(alloc),
            put: Items::new(alloc),
        }
    }

    /// What one more arc asks, by the value of its inscription.
    pub(crate) fn add(&mut self, alloc: Global, kind: ArcKind, value: Value) -> Result<(), NoMemory>
        ensures { OnOk result (self.new ≡ with_arc kind value self.old) }
    {
        match kind {
            ArcKind::Input => self.taken.push(value)?,
            ArcKind::Output => self.put.push(value)?,
            ArcKind::Test => self.tested.push(value)?,
            ArcKind::Inhibit => self.inhibited.push(value)?,
            ArcKind::Reserve => {
                self.put.push(copy(alloc, &value)?)?;
                self.taken.push(value)?;
            }
            ArcKind::FlexInput => append(&mut self.taken, elements_of(alloc, value)?)?,
            ArcKind::FlexOutput => append(&mut self.put, elements_of(alloc, value)?)?,
            ArcKind::Clear => self.cleared.push(elements_of(alloc, value)?)?,
        }
        Ok(())
    }

    /// Its values come in ascending order, but for the lists of clear arcs.
    pub(crate) fn sort(&mut self, alloc: Global) -> Result<(), NoMemory>
        ensures { OnOk result (self.new ≡ in_order self.old) }
    {
        ascend(alloc, &mut self.taken)?;
        ascend(alloc, &mut self.tested)?;
        ascend(alloc, &mut self.inhibited)?;
        ascend(alloc, &mut self.put)
    }
}

/// The values come in ascending order.
fn ascend(alloc: Global, values: &mut Vals) -> Result<(), NoMemory>
    ensures { OnOk result (values.new ≡ ordered_values values.old) }
{
    if values.len() < 2 {
        return Ok(());
    }
    let mut sorted = mem::replace(values, Items::new(alloc)).into_vec();
    sort(&mut sorted)?;
    *values = Items::from_vec(sorted);
    Ok(())
}
