//! A chunk of the places of an instance.
ghost use Rattle.std.specs.Prelude.{◌≡◌, length, map, slice_get, IfOk, OnOk};
ghost use Rattle.std.specs.Option.{option_copied};
ghost use Rattle.rn_model.specs.Lists.{ordered_values};
ghost use Rattle.rn_table.specs.link.Steps.{with_step};

use crate::bags::{bag_of, edit_shared};
use crate::edits::Edit;
use rn_bag::Bag;
use rn_items::NoMemory;
use rn_model::Place;
use std::alloc::Global;
use std::marker::Model;
use std::sync::Arc;

/// Places one after another, which contracts see as the list of their tokens. Copies share the
/// bags.
#[derive(Drop)]
pub(crate) struct PlaceChunk {
    bags: Vec<Arc<Bag>>,
}

impl Model for PlaceChunk {
    ghost use Rattle.std.specs.Prelude.{List, map};
    ghost use Rattle.std.specs.Coded.{coded_list};
    ghost use Rattle.rn_value.specs.declared.value.Value.{Value as Token};
    ghost use Rattle.rn_value.specs.contracts.value.Value as token;

    ghost Value = { List (List Token) };

    ghost coded = { coded_list (coded_list token.the_row.coded) };

    ghost view = { λ chunk. map (λ bag. bag.value) chunk.bags.items };
}

impl PlaceChunk {
    /// These places with their initial tokens.
    pub(crate) fn fresh(alloc: Global, places: &[Place]) -> Result<PlaceChunk, NoMemory>
        ensures { IfOk result (λ chunk. chunk ≡ map (λ p. ordered_values p.initial) places.now) }
    {
        let mut bags = Vec::with_capacity(alloc, places.len())?;
        for place in places {
            let bag = bag_of(alloc, &place.initial)?;
            bags.push(Arc::new(alloc, bag)?)?;
        }
        Ok(PlaceChunk { bags })
    }

    /// The bag of an index.
    pub(crate) fn get(&self, index: usize) -> Option<&Bag>
        ensures { option_copied result ≡ slice_get self.now index }
    {
        match self.bags.get(index) {
            None => None,
            Some(bag) => Some(bag),
        }
    }

    /// The same places, which share their bags with the first.
    pub(crate) fn copy(&self) -> Result<PlaceChunk, NoMemory>
        ensures { IfOk result (λ chunk. chunk ≡ self.now) }
    {
        let bags = copy_all(&self.bags)?;
        Ok(PlaceChunk { bags })
    }

    /// One token is taken from the place of an index or put there.
    pub(crate) fn edit(
        &mut self,
        alloc: Global,
        index: usize,
        edit: &Edit<'_>,
    ) -> Result<(), NoMemory>
        ensures places { OnOk result (self.new ≡ with_step edit.now index self.old) }
        ensures len { length self.new ≡ length self.old }
    {
        if index >= self.bags.len() {
            return Ok(());
        }
        edit_shared(alloc, &mut self.bags[index], edit)?;
        Ok(())
    }
}

/// The same pointers, once more.
pub(crate) fn copy_all<T: Drop>(pointers: &Vec<Arc<T>>) -> Result<Vec<Arc<T>>, NoMemory>
    ensures { IfOk result (λ copies. map (λ p. p.value) copies.items
        ≡ map (λ p. p.value) pointers.now.items) }
{
    let mut copies = Vec::with_capacity(*pointers.allocator(), pointers.len())?;
    for pointer in pointers.as_slice() {
        copies.push(Arc::try_clone(pointer)?)?;
    }
    Ok(copies)
}

/// One token is taken from a place of a chunk or put there: in place where nothing shares the
/// chunk, and else in a copy.
pub(crate) fn edit_chunk(
    alloc: Global,
    chunk: &mut Arc<PlaceChunk>,
    index: usize,
    edit: &Edit<'_>,
) -> Result<(), NoMemory>
    ensures places { OnOk result (chunk.new.value ≡ with_step edit.now index chunk.old.value) }
    ensures len { length chunk.new.value ≡ length chunk.old.value }
{
    if let Some(own) = Arc::get_mut(chunk) {
        return own.edit(alloc, index, edit);
    }
    let mut copied = chunk.copy()?;
    copied.edit(alloc, index, edit)?;
    *chunk = Arc::new(alloc, copied)?;
    Ok(())
}
