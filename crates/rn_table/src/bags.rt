//! The bag of a place.
ghost use Rattle.std.specs.Prelude.{◌≡◌, IfOk, OnOk};
ghost use Rattle.rn_model.specs.Lists.{ordered_values};
ghost use Rattle.rn_table.specs.link.Steps.{moved, stepped};

use crate::edits::Edit;
use rn_bag::Bag;
use rn_items::NoMemory;
use rn_value::{Vals, copy};
use std::alloc::Global;
use std::sync::Arc;

/// A bag of values.
pub(crate) fn bag_of(alloc: Global, values: &Vals) -> Result<Bag, NoMemory>
    ensures { IfOk result (λ bag. bag ≡ ordered_values values.now) }
{
    let values = values.as_slice();
    let mut bag = Bag::new(alloc);
    for i in (0..values.len()).rev() {
        bag.insert(copy(alloc, &values[i])?)?;
    }
    Ok(bag)
}

/// One token is taken or put, where it is there: in place where nothing shares the bag, and else in
/// a copy. One that is to be alone gets a bag of its own, and no token is copied.
pub(crate) fn edit_shared(
    alloc: Global,
    bag: &mut Arc<Bag>,
    edit: &Edit<'_>,
) -> Result<(), NoMemory>
    ensures { OnOk result (bag.new.value ≡ stepped edit.now bag.old.value) }
{
    if edit.alone {
        let mut empty = Bag::new(alloc);
        edit_bag(alloc, &mut empty, edit)?;
        *bag = Arc::new(alloc, empty)?;
        return Ok(());
    }
    if let Some(own) = Arc::get_mut(bag) {
        return edit_bag(alloc, own, edit);
    }
    let mut copied = bag.snapshot()?;
    edit_bag(alloc, &mut copied, edit)?;
    *bag = Arc::new(alloc, copied)?;
    Ok(())
}

fn edit_bag(alloc: Global, bag: &mut Bag, edit: &Edit<'_>) -> Result<(), NoMemory>
    ensures { OnOk result (bag.new ≡ moved edit.now bag.old) }
{
    if edit.puts {
        return bag.insert(copy(alloc, edit.value)?);
    }
    bag.remove(edit.value);
    Ok(())
}
