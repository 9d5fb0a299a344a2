//! The instances that reach some of others, found from these backwards.
ghost use Rattle.std.specs.Prelude.{◌≡◌, ◌↔◌, ◌<◌, ℕ, Some, IsTrue, nat_eq, Contains, IfOk, OnOk};
ghost use Rattle.std.specs.List.{IsDistinct};
ghost use Rattle.rn_reach.specs.Reach.{ReachesOne, RefersTo};
ghost use Rattle.rn_holders.specs.Holders.{MentionNear, HaveHolders, HasItsHolders, held_by};
ghost use Rattle.rn_holders.specs.link.Puts.{Joins, AreFound};

use crate::references::referred;
use indexmap::IndexSet;
use rn_items::NoMemory;
use rn_model::Nums;
use rn_table::Table;
use std::alloc::Global;

// The holders of an instance.
fn holders_of(holders: &[Nums], n: u32) -> &[u32]
    ensures { result.now ≡ held_by holders.now n }
{
    match holders.get(n as usize) {
        Some(numbers) => numbers.as_slice(),
        None => &[],
    }
}

// Whether an instance refers to another.
fn refers(alloc: Global, table: &Table, holder: u32, number: u32) -> Result<bool, NoMemory>
    requires { MentionNear table.now.marking }
    ensures { IfOk result (λ yes. IsTrue yes ↔ RefersTo table.now.marking holder number) }
{
    let numbers = referred(alloc, table, holder)?;
    Ok(numbers.as_slice().contains(&number))
}

// A number comes to the end, unless it is there.
fn join(found: &mut IndexSet<u32>, number: u32) -> Result<(), NoMemory>
    ensures { OnOk result (Joins (λ n. n ≡ number) found.old.keys found.new.keys) }
{
    found.insert(number)?;
    Ok(())
}

// A holder comes to the end, where it refers to an instance and isn't there.
fn join_holder(
    alloc: Global,
    table: &Table,
    holder: u32,
    number: u32,
    found: &mut IndexSet<u32>,
) -> Result<(), NoMemory>
    requires { MentionNear table.now.marking }
    ensures { OnOk result (Joins (λ n. (n ≡ holder) × RefersTo table.now.marking n number)
        found.old.keys found.new.keys) }
{
    if found.contains(&holder) {
        return Ok(());
    }
    if refers(alloc, table, holder, number)? {
        join(found, holder)?;
    }
    Ok(())
}

// Those of some holders that refer to an instance come to the end.
fn join_holders(
    alloc: Global,
    table: &Table,
    holders: &[u32],
    number: u32,
    found: &mut IndexSet<u32>,
) -> Result<(), NoMemory>
    requires { MentionNear table.now.marking }
    ensures { OnOk result (Joins
        (λ n. Contains holders.now n × RefersTo table.now.marking n number)
        found.old.keys found.new.keys) }
{
    for holder in holders {
        join_holder(alloc, table, *holder, number, found)?;
    }
    Ok(())
}

// These numbers come to the end.
fn join_all(those: &[u32], found: &mut IndexSet<u32>) -> Result<(), NoMemory>
    ensures { OnOk result (Joins (Contains those.now) found.old.keys found.new.keys) }
{
    for number in those {
        join(found, *number)?;
    }
    Ok(())
}

// Goes from each that is there to those that refer to it.
fn go_back(
    alloc: Global,
    table: &Table,
    holders: &[Nums],
    found: &mut IndexSet<u32>,
) -> Result<(), NoMemory>
    requires near { MentionNear table.now.marking }
    requires held { HaveHolders table.now.marking holders.now }
    ensures { OnOk result (AreFound table.now.marking found.old.keys found.new.keys) }
{
    for at in 0..usize::MAX {
        let Some(number) = found.get_index(at) else {
            return Ok(());
        };
        let number = *number;
        join_holders(alloc, table, holders_of(holders, number), number, found)?;
    }
    // For its clauses: there are fewer than 2^63 numbers, so all were gone through.
    let _len = found.len();
    Ok(())
}

// Goes from each that is there to all that are listed as its holders.
fn go_back_by(holders: &[Nums], found: &mut IndexSet<u32>) -> Result<(), NoMemory>
    ensures { OnOk result (HasItsHolders holders.now found.old.keys found.new.keys) }
{
    for at in 0..usize::MAX {
        let Some(number) = found.get_index(at) else {
            return Ok(());
        };
        let number = *number;
        join_all(holders_of(holders, number), found)?;
    }
    // For its clauses: there are fewer than 2^63 numbers, so all were gone through.
    let _len = found.len();
    Ok(())
}

/// The instances that may reach one of these, by lists of the instances that may refer to each: these,
/// and the holders of each that is found. It looks at no token.
pub fn may_reach(alloc: Global, holders: &[Nums], those: &[u32]) -> Result<IndexSet<u32>, NoMemory>
    ensures { IfOk result (λ found. HasItsHolders holders.now those.now found.keys) }
{
    let mut found = IndexSet::new(alloc);
    join_all(those, &mut found)?;
    go_back_by(holders, &mut found)?;
    Ok(found)
}

/// The instances that reach one of these, each once, by lists of the instances that may refer to each.
///
/// It goes from these backwards, so it looks at those alone that reach one of them, and at the holders
/// of these.
pub fn reaching(
    alloc: Global,
    table: &Table,
    holders: &[Nums],
    those: &[u32],
) -> Result<IndexSet<u32>, NoMemory>
    requires near { MentionNear table.now.marking }
    requires held { HaveHolders table.now.marking holders.now }
    ensures just { IfOk result (λ found. (n : ℕ) →
        Contains found.keys n ↔ ReachesOne table.now.marking those.now n) }
    ensures once { IfOk result (λ found. IsDistinct nat_eq found.keys) }
{
    let mut found = IndexSet::new(alloc);
    join_all(those, &mut found)?;
    go_back(alloc, table, holders, &mut found)?;
    // For its clause: each number is there once.
    let _len = found.len();
    Ok(found)
}
