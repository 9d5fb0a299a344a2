//! Lists of values: the elements of one, and more at its end.
ghost use Rattle.std.specs.Prelude.{◌≡◌, ◌++◌, IfOk, OnOk};
ghost use Rattle.rn_model.specs.Demands.{elements};

use rn_items::{Items, NoMemory};
use rn_value::{Vals, Value, own_items};
use std::alloc::Global;

/// The elements of a list. What is no list has none.
pub fn elements_of(alloc: Global, value: Value) -> Result<Vals, NoMemory>
    ensures { IfOk result (λ values. values ≡ elements value) }
{
    match value {
        Value::List(values) => own_items(alloc, values),
        _ => Ok(Items::new(alloc)),
    }
}

/// More values at the end.
pub fn append(values: &mut Vals, others: Vals) -> Result<(), NoMemory>
    ensures { OnOk result (values.new ≡ values.old ++ others) }
{
    for other in others.into_vec() {
        values.push(other)?;
    }
    Ok(())
}
