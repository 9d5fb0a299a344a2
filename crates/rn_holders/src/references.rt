//! The instances to which an instance refers.
ghost use Rattle.std.specs.Prelude.{◌↔◌, ℕ, Contains, IfOk, OnOk};
ghost use Rattle.std.specs.List.{list_any};
ghost use Rattle.rn_model.specs.Liveness.{mentions};
ghost use Rattle.rn_live.specs.link.Marks.{holds};
ghost use Rattle.rn_reach.specs.Reach.{RefersTo};
ghost use Rattle.rn_holders.specs.Holders.{MentionNear};
ghost use Rattle.rn_holders.specs.link.Puts.{Puts};

use crate::values::put_value;
use rn_bag::Bag;
use rn_items::NoMemory;
use rn_table::Table;
use std::alloc::Global;

// Puts each existing instance that occurs in a token. Of equal tokens it looks at one.
fn put_bag(bag: &Bag, numbers: &mut Vec<u32>) -> Result<(), NoMemory>
    ensures { OnOk result (Puts (λ n. list_any (λ token. mentions token n) bag.now)
        numbers.old.items numbers.new.items) }
{
    let mut index = 0;
    while let Some(token) = bag.get(index) {
        put_value(token, numbers)?;
        index = bag.next_other(index);
    }
    Ok(())
}

// Puts each existing instance that occurs in a token of an instance.
fn put_instance(table: &Table, number: u32, numbers: &mut Vec<u32>) -> Result<(), NoMemory>
    requires { MentionNear table.now.marking }
    ensures { OnOk result (Puts (holds table.now.marking number)
        numbers.old.items numbers.new.items) }
{
    for place in 0..u32::MAX {
        let Some(bag) = table.bag(number, place) else {
            return Ok(());
        };
        put_bag(bag, numbers)?;
    }
    Ok(())
}

/// The instances to which an instance refers by its tokens. One that occurs in several of them may
/// stand there several times.
pub(crate) fn referred(alloc: Global, table: &Table, number: u32) -> Result<Vec<u32>, NoMemory>
    requires { MentionNear table.now.marking }
    ensures { IfOk result (λ numbers. (n : ℕ) →
        Contains numbers.items n ↔ RefersTo table.now.marking number n) }
{
    let mut numbers = Vec::new(alloc);
    put_instance(table, number, &mut numbers)?;
    Ok(numbers)
}
