//! The digits of numbers.
ghost use Rattle.std.specs.Prelude.{◌≡◌, ◌++◌, OnOk, OnErr};
ghost use Rattle.rn_value.specs.Text.{numeral, whole_number};

use rn_items::NoMemory;
use std::alloc::Global;

/// Appends a whole number in decimal, as `-5`.
pub fn write_int(alloc: Global, n: i64, out: &mut Vec<u8>) -> Result<(), NoMemory>
    ensures ok { OnOk result (out.new.items ≡ out.old.items ++ whole_number n) }
    ensures err { OnErr result (out.new.items ≡ out.old.items) }
{
    let text = n.to_string(alloc)?;
    out.extend_from_slice(text.as_bytes())?;
    Ok(())
}

/// Appends the digits of a number that isn't negative, as `5`.
pub fn write_numeral(alloc: Global, n: u64, out: &mut Vec<u8>) -> Result<(), NoMemory>
    ensures ok { OnOk result (out.new.items ≡ out.old.items ++ numeral n) }
    ensures err { OnErr result (out.new.items ≡ out.old.items) }
{
    let text = n.to_string(alloc)?;
    out.extend_from_slice(text.as_bytes())?;
    Ok(())
}
