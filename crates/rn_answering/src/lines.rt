//! The lines of refusals and faults.
ghost use Rattle.std.specs.Prelude.{◌≡◌, ◌++◌, IfOk, OnOk};
ghost use Rattle.rn_value.specs.Text.{numeral};
ghost use Rattle.rn_answering.specs.Lines.{number_line, spot_line};

use rn_items::{Items, NoMemory};
use rn_notation::Spot;
use std::alloc::Global;

// Appends the digits of a number.
fn put_number(alloc: Global, number: u64, line: &mut Vec<u8>) -> Result<(), NoMemory>
    ensures { OnOk result (line.new.items ≡ line.old.items ++ numeral number) }
{
    let text = number.to_string(alloc)?;
    line.extend_from_slice(text.as_bytes())?;
    Ok(())
}

/// A code and a number, as `U3 3`.
pub fn number_line(alloc: Global, code: &[u8], number: u64) -> Result<Items<u8>, NoMemory>
    ensures { IfOk result (λ line. line ≡ number_line code.now number) }
{
    let mut line = Vec::from_slice(alloc, code)?;
    line.push(b' ')?;
    put_number(alloc, number, &mut line)?;
    line.push(b'\n')?;
    Ok(Items::from_vec(line))
}

/// A code and a spot, as `P2 1:1`.
pub(crate) fn spot_line(alloc: Global, code: &[u8], spot: Spot) -> Result<Items<u8>, NoMemory>
    ensures { IfOk result (λ line. line ≡ spot_line code.now spot) }
{
    let mut line = Vec::from_slice(alloc, code)?;
    line.push(b' ')?;
    put_number(alloc, spot.line as u64, &mut line)?;
    line.push(b':')?;
    put_number(alloc, spot.column as u64, &mut line)?;
    line.push(b'\n')?;
    Ok(Items::from_vec(line))
}
