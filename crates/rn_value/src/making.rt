//! Making texts, tuples and lists of values, and taking lists apart.
ghost use Rattle.std.specs.Prelude.{◌≡◌, IfOk};
ghost use Rattle.rn_value.specs.declared.value.Value.TheVariants as Value;

use crate::copying::{copy_all, copy_text};
use crate::text::Str;
use crate::value::{Vals, Value};
use rn_items::NoMemory;
use rn_shared::Shared;
use std::alloc::Global;

/// The same text, which values may share.
pub fn shared_text(alloc: Global, text: &Str) -> Result<Shared<Str>, NoMemory>
    ensures { IfOk result (λ t. t ≡ text.now) }
{
    Ok(Shared::new(alloc, copy_text(alloc, text)?)?)
}

/// The tuple of these parts.
pub fn tuple_value(alloc: Global, parts: Vals) -> Result<Value, NoMemory>
    ensures { IfOk result (λ v. v ≡ Value.Tuple parts) }
{
    Ok(Value::Tuple(Shared::new(alloc, parts)?))
}

/// The list of these elements.
pub fn list_value(alloc: Global, elements: Vals) -> Result<Value, NoMemory>
    ensures { IfOk result (λ v. v ≡ Value.List elements) }
{
    Ok(Value::List(Shared::new(alloc, elements)?))
}

/// The parts of a tuple or the elements of a list: themselves where no other value shares them, and
/// otherwise copies of them, each of which shares its insides.
pub fn own_items(alloc: Global, items: Shared<Vals>) -> Result<Vals, NoMemory>
    ensures { IfOk result (λ own. own ≡ items) }
{
    match items.try_unwrap() {
        Ok(own) => Ok(own),
        Err(shared) => copy_all(alloc, shared.get().as_slice()),
    }
}
