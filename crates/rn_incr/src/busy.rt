//! Which lists aren't empty, as a set of their numbers.
ghost use Rattle.std.specs.Prelude.{◌≡◌, ◌<◌, ◌∷◌, ℕ, [], List, IfOk, OnOk, IfSome, IfNone};
ghost use Rattle.std.specs.Prelude.{length, slice_index_or};
ghost use Rattle.std.specs.Option.{option_copied};
ghost use Rattle.rn_incr.specs.link.Kept.{AreBusy, AreNear, AreNoted, GrowsBy, numbers_of};

use crate::fresh::Fresh;
use crate::lists::Cands;
use rn_binding::Candidate;
use rn_items::NoMemory;
use std::alloc::Global;
use std::collections::BTreeSet;

/// The numbers of the lists that aren't empty.
pub(crate) fn busy_of(alloc: Global, lists: &[Cands]) -> Result<BTreeSet<usize>, NoMemory>
    ensures { IfOk result (AreBusy lists.now) }
{
    let mut busy = BTreeSet::new(alloc);
    for at in 0..lists.len() {
        if !lists[at].is_empty() {
            busy.insert(at)?;
        }
    }
    Ok(busy)
}

/// The first binding of the first list that isn't empty.
pub(crate) fn first_of<'a>(lists: &'a [Cands], busy: &BTreeSet<usize>) -> Option<&'a Candidate>
    requires { AreBusy lists.now busy.now }
    ensures some { IfSome (option_copied result) (λ b. (i : ℕ)
        × ((n : ℕ) → n < i → slice_index_or lists.now n [] ≡ [])
        × (0 < length (slice_index_or lists.now i []))
        × (b ≡ slice_index_or (slice_index_or lists.now i []) 0 b)) }
    ensures none { IfNone (option_copied result) ((n : ℕ) → slice_index_or lists.now n [] ≡ []) }
{
    let Some(at) = busy.first() else {
        return None;
    };
    match lists.get(*at) {
        Some(list) => list.get(0),
        None => None,
    }
}

/// The number of each new list that isn't empty comes to a set.
pub(crate) fn note_all(fresh: &[Fresh], busy: &mut BTreeSet<usize>) -> Result<(), NoMemory>
    ensures grows { GrowsBy (numbers_of fresh.now) busy.old busy.new }
    ensures noted { OnOk result (AreNoted busy.new fresh.now) }
{
    for one in fresh {
        if !one.list.is_empty() {
            busy.insert(one.number as usize)?;
        }
    }
    Ok(())
}

// A number goes from a set, where its list is empty.
fn settle_one(lists: &[Cands], number: u32, busy: &mut BTreeSet<usize>)
    ensures { (those : List ℕ) → AreNear lists.now (number ∷ those) busy.old →
        AreNear lists.now those busy.new }
{
    match lists.get(number as usize) {
        Some(list) => {
            if list.is_empty() {
                busy.remove(&(number as usize));
            }
        }
        None => {
            busy.remove(&(number as usize));
        }
    }
}

/// Those of these numbers go from a set whose lists are empty.
pub(crate) fn settle(lists: &[Cands], numbers: &[u32], busy: &mut BTreeSet<usize>)
    requires { AreNear lists.now numbers.now busy.old }
    ensures { AreBusy lists.now busy.new }
{
    for number in numbers {
        settle_one(lists, *number, busy);
    }
}
