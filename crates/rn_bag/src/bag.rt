//! Bags, and what changes them.
ghost use Rattle.std.specs.Prelude.{◌≡◌, ◌<◌, ◌≤◌, ◌+◌, ◌↔◌, ℕ, [], take, drop, length, IsTrue, IfOk, OnOk, OnErr, Some, slice_get};
ghost use Rattle.std.specs.Bool.{OnTrue, OnFalse};
ghost use Rattle.std.specs.List.Sorted.{IsSorted};
ghost use Rattle.std.specs.Option.{option_copied};
ghost use Rattle.rn_value.specs.Order.{value_cmp};
ghost use Rattle.rn_model.specs.Lists.{count_of, with_value, without_one};
ghost use Rattle.rn_bag.specs.Cuts.{AllBefore, NoneBefore, Ascends};

use crate::chunks::Chunks;
use crate::counting::{count_before, run_at, token_at};
use crate::cut::Cut;
use crate::edits::{put_back, put_first, put_new, take_out};
use crate::seek::{SlotIndex, first_token, seek};
use rn_items::{Items, NoMemory};
use rn_value::{Vals, Value, same};
use std::alloc::Global;
use std::marker::Model;

/// A multiset of values, which contracts see as the ascending list of its values with repeats.
///
/// A copy shares the tokens with the first. Taking a token, putting it back and looking up take no
/// memory and leave what is shared as it is; another token makes at most 64 anew.
#[derive(Drop)]
pub struct Bag {
    chunks: Chunks,
}

impl Model for Bag {
    ghost use Rattle.std.specs.Prelude.{List};
    ghost use Rattle.std.specs.Coded.{coded_list};
    ghost use Rattle.rn_value.specs.declared.value.Value.{Value as Token};
    ghost use Rattle.rn_value.specs.contracts.value.Value as token;
    ghost use Rattle.rn_bag.specs.link.Chunks.{tokens_in, AreSound};

    ghost Value = { List Token };

    ghost coded = { coded_list token.the_row.coded };

    ghost view = { λ bag. tokens_in bag.chunks };

    ghost invariant = { λ bag. AreSound bag.chunks };
}

impl Bag {
    /// The empty bag. It takes no memory.
    pub fn new(alloc: Global) -> Bag
        ensures { result ≡ [] }
    {
        Bag {
            chunks: Chunks::new(alloc),
        }
    }

    /// The same bag, which shares its tokens with the first.
    pub fn snapshot(&self) -> Result<Bag, NoMemory>
        ensures { IfOk result (λ bag. bag ≡ self.now) }
    {
        let chunks = self.chunks.copy()?;
        Ok(Bag { chunks })
    }

    /// One less of a value. The answer is whether it was there. It takes no memory.
    pub fn remove(&mut self, value: &Value) -> bool
        ensures found { IsTrue result ↔ (0 < count_of value.now self.old) }
        ensures taken { OnTrue result (self.new ≡ without_one self.old value.now) }
        ensures absent { OnFalse result (self.new ≡ self.old) }
    {
        let from = seek(&self.chunks, value, Cut::Below);
        let Some(at) = first_token(&self.chunks, from) else {
            return false;
        };
        if !same(&self.chunks.at(at.chunk).values()[at.slot], value) {
            return false;
        }
        take_out(&mut self.chunks, at);
        true
    }

    /// One more of a value.
    pub fn insert(&mut self, value: Value) -> Result<(), NoMemory>
        ensures ok { OnOk result (self.new ≡ with_value value self.old) }
        ensures err { OnErr result (self.new ≡ self.old) }
    {
        let alloc = self.chunks.allocator();
        if self.chunks.len() == 0 {
            return put_first(&mut self.chunks, alloc, value);
        }
        let from = seek(&self.chunks, &value, Cut::Below);
        if let Some(slot) = self.chunks.at(from.chunk).free_from(from.slot, &value) {
            put_back(
                &mut self.chunks,
                SlotIndex {
                    chunk: from.chunk,
                    slot,
                },
            );
            return Ok(());
        }
        let past = seek(&self.chunks, &value, Cut::UpTo);
        put_new(&mut self.chunks, alloc, past, value)
    }

    /// The tokens in ascending order, with repeats.
    pub fn sorted_list(&self) -> Result<Vals, NoMemory>
        ensures tokens { IfOk result (λ tokens. tokens ≡ self.now) }
        ensures sorted { IsSorted value_cmp self.now }
    {
        let alloc = self.chunks.allocator();
        let mut tokens = Vec::new(alloc);
        for index in 0..self.chunks.len() {
            self.chunks.at(index).append_to(alloc, &mut tokens)?;
        }
        Ok(Items::from_vec(tokens))
    }

    /// How many tokens there are.
    pub fn len(&self) -> usize
        ensures count { result ≡ length self.now }
        ensures sorted { IsSorted value_cmp self.now }
    {
        count_before(&self.chunks, self.chunks.len())
    }

    /// The token of this index in ascending order, from 0.
    pub fn get(&self, index: usize) -> Option<&Value>
        ensures { option_copied result ≡ slice_get self.now index }
    {
        if index >= self.len() {
            return None;
        }
        Some(self.token(index))
    }

    /// The token of an index that is there.
    pub(crate) fn token(&self, index: usize) -> &Value
        requires { index < length self.now }
        ensures { slice_get self.now index ≡ Some result.now }
    {
        token_at(&self.chunks, index)
    }

    /// Tokens that stand side by side in memory, from one that is there on.
    pub(crate) fn run(&self, index: usize) -> &[Value]
        requires { index < length self.now }
        ensures some { 0 < length result.now }
        ensures bound { index + length result.now ≤ length self.now }
        ensures tokens { (k : ℕ) → k < length result.now →
            slice_get self.now (index + k) ≡ slice_get result.now k }
    {
        run_at(&self.chunks, index)
    }

    /// How many tokens stand before a cut.
    pub(crate) fn cut_at(&self, key: &Value, cut: Cut) -> usize
        ensures bound { result ≤ length self.now }
        ensures before { AllBefore cut key.now (take result self.now) }
        ensures rest { NoneBefore cut key.now (drop result self.now) }
        ensures ascend { Ascends self.now }
    {
        let at = seek(&self.chunks, key, cut);
        if at.chunk >= self.chunks.len() {
            return 0;
        }
        let chunk = self.chunks.at(at.chunk);
        chunk.before() + chunk.rank(at.slot)
    }

    /// The allocator that the bag keeps.
    pub(crate) fn allocator(&self) -> Global {
        self.chunks.allocator()
    }
}
