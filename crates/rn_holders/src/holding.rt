//! Lists of the instances that may refer to each instance.
ghost use Rattle.std.specs.Prelude.{◌≡◌, ◌<◌, ℕ, length, Contains, OnOk};
ghost use Rattle.rn_reach.specs.Reach.{RefersTo};
ghost use Rattle.rn_holders.specs.Holders.{MentionNear, KeepHolders, HaveTheseHolders, held_by};

use crate::references::referred;
use rn_items::{Items, NoMemory};
use rn_model::Nums;
use rn_table::Table;

// Empty lists come to the end, until there is one for a number.
fn lengthen(holders: &mut Vec<Nums>, number: u32) -> Result<(), NoMemory>
    ensures same { (n : ℕ) → held_by holders.new.items n ≡ held_by holders.old.items n }
    ensures long { OnOk result (number < length holders.new.items) }
{
    let alloc = *holders.allocator();
    while holders.len() <= number as usize {
        holders.push(Items::new(alloc))?;
    }
    Ok(())
}

// One holder more of an instance, unless it is there.
fn hold(holders: &mut Vec<Nums>, number: u32, holder: u32) -> Result<(), NoMemory>
    ensures keep { KeepHolders holders.old.items holders.new.items }
    ensures has { OnOk result (Contains (held_by holders.new.items number) holder) }
{
    lengthen(holders, number)?;
    let list = &mut holders[number as usize];
    if list.as_slice().contains(&holder) {
        return Ok(());
    }
    list.push(holder)?;
    Ok(())
}

// An instance becomes a holder of each to which it refers.
fn hold_from(table: &Table, holder: u32, holders: &mut Vec<Nums>) -> Result<(), NoMemory>
    requires { MentionNear table.now.marking }
    ensures keep { KeepHolders holders.old.items holders.new.items }
    ensures has { OnOk result ((n : ℕ) → RefersTo table.now.marking holder n →
        Contains (held_by holders.new.items n) holder) }
{
    let numbers = referred(*holders.allocator(), table, holder)?;
    for number in numbers.as_slice() {
        hold(holders, *number, holder)?;
    }
    Ok(())
}

/// Each of these instances becomes a holder of each to which it refers. Holders that were there stay,
/// also where it ends for want of memory.
pub fn hold_all(table: &Table, those: &[u32], holders: &mut Vec<Nums>) -> Result<(), NoMemory>
    requires { MentionNear table.now.marking }
    ensures keep { KeepHolders holders.old.items holders.new.items }
    ensures has { OnOk result (HaveTheseHolders table.now.marking those.now holders.new.items) }
{
    for holder in those {
        hold_from(table, *holder, holders)?;
    }
    Ok(())
}
