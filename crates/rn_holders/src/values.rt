//! The existing instances that occur in values.
ghost use Rattle.std.specs.Prelude.{map, nat_eq, OnOk};
ghost use Rattle.std.specs.List.{list_any};
ghost use Rattle.rn_model.specs.Liveness.{mentions};
ghost use Rattle.rn_holders.specs.link.Puts.{Puts};

use rn_items::NoMemory;
use rn_value::{InstRef, Value};

/// Puts each existing instance that occurs in a value. It goes as deep as the value nests.
#[cycle(put)]
pub(crate) fn put_value(value: &Value, numbers: &mut Vec<u32>) -> Result<(), NoMemory>
    ensures { OnOk result (Puts (mentions value.now) numbers.old.items numbers.new.items) }
{
    match value {
        Value::Int(_) => Ok(()),
        Value::Text(_) => Ok(()),
        Value::Tuple(parts) => put_values(parts.as_slice(), numbers),
        Value::List(parts) => put_values(parts.as_slice(), numbers),
        Value::Inst(InstRef::Old(number)) => put_number(*number, numbers),
        Value::Inst(InstRef::New(_, _)) => Ok(()),
    }
}

#[cycle(put)]
fn put_values(values: &[Value], numbers: &mut Vec<u32>) -> Result<(), NoMemory>
    ensures { OnOk result (Puts (λ n. list_any (λ test. test n) (map mentions values.now))
        numbers.old.items numbers.new.items) }
{
    for value in values {
        put_value(value, numbers)?;
    }
    Ok(())
}

// Puts one number.
fn put_number(number: u32, numbers: &mut Vec<u32>) -> Result<(), NoMemory>
    ensures { OnOk result (Puts (nat_eq number) numbers.old.items numbers.new.items) }
{
    numbers.push(number)?;
    Ok(())
}
