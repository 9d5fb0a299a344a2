//! Putting lists that were made anew in the place of the old ones. Once there is room it takes no
//! memory.
ghost use Rattle.std.specs.Prelude.{◌≡◌, ◌≤◌, [], ℕ, OnOk};
ghost use Rattle.std.specs.Prelude.{length, slice_index_or, slice_set, vec_capacity};
ghost use Rattle.rn_incr.specs.link.Kept.{IsSum, put_in};

use crate::fresh::Fresh;
use crate::lists::Cands;
use rn_items::{Items, NoMemory};
use std::alloc::Global;

/// Room for one list for each number below `end`.
pub(crate) fn make_room(lists: &mut Vec<Cands>, end: usize) -> Result<(), NoMemory>
    ensures same { lists.new.items ≡ lists.old.items }
    ensures room { OnOk result (end ≤ vec_capacity lists.new) }
{
    lists.reserve(end.saturating_sub(lists.len()))?;
    Ok(())
}

/// Empty lists come to the end, until there is one for each number below `end`.
pub(crate) fn lengthen(alloc: Global, lists: &mut Vec<Cands>, end: usize)
    requires { end ≤ vec_capacity lists.old }
    ensures same { (n : ℕ) →
        slice_index_or lists.new.items n [] ≡ slice_index_or lists.old.items n [] }
    ensures long { end ≤ length lists.new.items }
    ensures sum { (total : ℕ) → IsSum lists.old.items total → IsSum lists.new.items total }
{
    while lists.len() < end {
        lists.push_reserved(Items::new(alloc));
    }
}

// A new list comes in the place of the one of its instance, where there is one.
fn put_one(lists: &mut Vec<Cands>, total: &mut u128, one: Fresh)
    requires { IsSum lists.old.items total.old }
    ensures put { lists.new.items ≡ slice_set lists.old.items one.number one.list }
    ensures sum { IsSum lists.new.items total.new }
{
    let at = one.number as usize;
    if at < lists.len() {
        *total = *total - lists[at].len() as u128 + one.list.len() as u128;
        lists[at] = one.list;
    }
}

/// Each new list comes in the place of the one of its instance.
pub(crate) fn put_all(lists: &mut Vec<Cands>, total: &mut u128, fresh: &mut Vec<Fresh>)
    requires { IsSum lists.old.items total.old }
    ensures put { lists.new.items ≡ put_in fresh.old.items lists.old.items }
    ensures sum { IsSum lists.new.items total.new }
    ensures empty { fresh.new.items ≡ [] }
{
    while let Some(one) = fresh.pop() {
        put_one(lists, total, one);
    }
}
