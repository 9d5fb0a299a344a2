//! Which instances may refer to which, but one, whose tokens are looked at one by one.
ghost use Rattle.std.specs.Prelude.{◌≢◌, ℕ, IfOk, OnOk, Contains};
ghost use Rattle.rn_holders.specs.Holders.{MentionNear};
ghost use Rattle.rn_parted.specs.Parted.{HaveOtherHolders};

use rn_holders::hold_all;
use rn_items::NoMemory;
use rn_model::Nums;
use rn_table::Table;
use std::alloc::Global;

// A number comes to the end, unless it is another.
fn push_other(others: &mut Vec<u32>, other: u32, number: u32) -> Result<(), NoMemory>
    ensures keep { OnOk result ((k : ℕ) → Contains others.old.items k →
        Contains others.new.items k) }
    ensures has { OnOk result (other ≢ number → Contains others.new.items other) }
{
    if other == number {
        return Ok(());
    }
    others.push(other)?;
    Ok(())
}

/// These numbers without one of them.
pub(crate) fn without(alloc: Global, numbers: &[u32], number: u32) -> Result<Vec<u32>, NoMemory>
    ensures { IfOk result (λ others. (k : ℕ) → k ≢ number → Contains numbers.now k →
        Contains others.items k) }
{
    let mut others = Vec::new(alloc);
    for other in numbers {
        push_other(&mut others, *other, number)?;
    }
    Ok(others)
}

/// The holders of each instance of a table, but one.
pub(crate) fn holders_but(alloc: Global, table: &Table, number: u32) -> Result<Vec<Nums>, NoMemory>
    requires { MentionNear table.now.marking }
    ensures { IfOk result (λ holders. HaveOtherHolders table.now.marking number holders.items) }
{
    let mut holders = Vec::new(alloc);
    let numbers = table.instances()?;
    let others = without(alloc, numbers.as_slice(), number)?;
    hold_all(table, others.as_slice(), &mut holders)?;
    Ok(holders)
}
