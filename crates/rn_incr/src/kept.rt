//! Lists, with how many bindings they have and which of them aren't empty.
ghost use Rattle.std.specs.Prelude.{◌≡◌, ◌<◌, [], ℕ, IfOk, IfSome, IfNone, OnOk, OnErr};
ghost use Rattle.std.specs.Prelude.{length, flat_map, slice_index_or};
ghost use Rattle.std.specs.Option.{option_copied};
ghost use Rattle.rn_incr.specs.link.Kept.{ArePut, numbers_of};

use crate::busy::{busy_of, first_of, note_all, settle};
use crate::counting::count_of;
use crate::fresh::Fresh;
use crate::lists::Cands;
use crate::putting::{lengthen, make_room, put_all};
use rn_binding::Candidate;
use rn_items::NoMemory;
use std::alloc::Global;
use std::collections::BTreeSet;
use std::marker::Model;

/// A list for each number. How many bindings all have is kept with them, and which of them aren't
/// empty.
#[derive(Drop)]
pub(crate) struct KeptLists {
    lists: Vec<Cands>,
    total: u128,
    busy: BTreeSet<usize>,
}

impl Model for KeptLists {
    ghost use Rattle.std.specs.Prelude.{List};
    ghost use Rattle.std.specs.Coded.{codes};
    ghost use Rattle.rn_value.specs.contracts.value.Value as value;
    ghost use Rattle.rn_model.specs.declared.binding.Binding.{Binding};
    ghost use Rattle.rn_incr.specs.link.Kept.{AreBusy, IsSum};

    ghost Value = { List (List Binding) };

    ghost coded = { Prim.hlevel (codes, value.the_row.coded) };

    ghost view = { λ k. k.lists.items };

    ghost invariant = { λ k. IsSum k.lists.items k.total × AreBusy k.lists.items k.busy };
}

impl KeptLists {
    /// These lists.
    pub(crate) fn open(alloc: Global, lists: Vec<Cands>) -> Result<KeptLists, NoMemory>
        ensures { IfOk result (λ kept. kept ≡ lists.items) }
    {
        let total = count_of(lists.as_slice());
        let busy = busy_of(alloc, lists.as_slice())?;
        Ok(KeptLists { lists, total, busy })
    }

    /// How many bindings all lists have.
    pub(crate) fn total(&self) -> u128
        ensures { result ≡ length (flat_map (λ xs. xs) self.now) }
    {
        self.total
    }

    /// The first binding of the first list that isn't empty.
    pub(crate) fn first(&self) -> Option<&Candidate>
        ensures some { IfSome (option_copied result) (λ b. (i : ℕ)
            × ((n : ℕ) → n < i → slice_index_or self.now n [] ≡ [])
            × (0 < length (slice_index_or self.now i []))
            × (b ≡ slice_index_or (slice_index_or self.now i []) 0 b)) }
        ensures none { IfNone (option_copied result)
            ((n : ℕ) → slice_index_or self.now n [] ≡ []) }
    {
        first_of(self.lists.as_slice(), &self.busy)
    }

    /// Each new list comes in the place of the one of its number; empty lists come to the end until
    /// there is one for each number below `end`. All memory is taken before a list changes.
    pub(crate) fn put(
        &mut self,
        end: usize,
        numbers: &[u32],
        mut fresh: Vec<Fresh>,
    ) -> Result<(), NoMemory>
        requires { numbers_of fresh.items ≡ numbers.now }
        ensures put { OnOk result (ArePut end fresh.items self.old self.new) }
        ensures err { OnErr result (self.new ≡ self.old) }
    {
        make_room(&mut self.lists, end)?;
        let noted = note_all(fresh.as_slice(), &mut self.busy);
        if noted.is_ok() {
            let alloc = *self.lists.allocator();
            lengthen(alloc, &mut self.lists, end);
            put_all(&mut self.lists, &mut self.total, &mut fresh);
        }
        settle(self.lists.as_slice(), numbers, &mut self.busy);
        noted
    }
}
