//! A chunk of a bag, to be read: at most 64 values, and which of them are tokens.
ghost use Rattle.std.specs.Prelude.{◌≡◌, ◌+◌, ◌<◌, ◌≤◌, ◌↔◌, ℕ, suc, [], ◌∷◌, ◌++◌, true, false, take, drop, length, IfOk, IfSome, IfNone, IsTrue, slice_get, Some};
ghost use Rattle.std.specs.List.{AllByRecursion};
ghost use Rattle.rn_value.specs.declared.value.Value.{Value};
ghost use Rattle.rn_bag.specs.link.Chunks.{Slots, HasRoom, IsChunk, tokens_in_chunk};
ghost use Rattle.rn_bag.specs.Cuts.{AllBefore, NoneBelow, Ascends};
ghost use Rattle.rn_bag.specs.Slots.{there_from};
ghost use Rattle.rn_bag.specs.Words.{has_bit};

use crate::cut::{Cut, stands_before};
use crate::tag::Tag;
use crate::words::{self, ROOM};
use rn_items::NoMemory;
use rn_value::{Value, copy, same};
use std::alloc::Global;
use std::marker::Model;

/// The values of a chunk in ascending order, which of them are tokens, and how many tokens stand in
/// the chunks before this one. Values that aren't tokens any more stay until the chunk is made
/// anew, so that taking one touches nothing that copies share.
#[derive(Drop)]
pub(crate) struct Chunk<'a> {
    list: &'a [Value],
    word: u64,
    count: usize,
    before: usize,
}

impl<'a> Model for Chunk<'a> {
    ghost use Rattle.rn_bag.specs.link.Chunks.{Slots, IsChunk, slots_code};

    ghost Value = { Slots };

    ghost coded = { slots_code };

    ghost view = { λ chunk. record {
      values = chunk.list.now;
      there = chunk.word;
      before = chunk.before;
    } };

    ghost invariant = { λ chunk. IsChunk chunk.list.now chunk.word chunk.count };
}

impl<'a> Chunk<'a> {
    /// The chunk of a tag, whose values are these.
    pub(crate) fn new(values: &'a [Value], tag: Tag) -> Chunk<'a>
        requires { IsChunk values.now tag.word tag.count }
        ensures { result ≡ record { values = values.now; there = tag.word; before = tag.before } }
    {
        Chunk {
            list: values,
            word: tag.word,
            count: tag.count,
            before: tag.before,
        }
    }

    /// The values of the slots.
    pub(crate) fn values(&self) -> &'a [Value]
        ensures value { result.now ≡ self.now.values }
        ensures room { HasRoom self.now.values }
    {
        self.list
    }

    /// The set of the slots that hold a token.
    pub(crate) fn there(&self) -> u64
        ensures { result ≡ self.now.there }
    {
        self.word
    }

    /// How many tokens there are.
    pub(crate) fn count(&self) -> usize
        ensures count { result ≡ length (tokens_in_chunk self.now) }
        ensures bound { result ≤ ROOM }
    {
        self.count
    }

    /// How many tokens the chunk says stand before it.
    pub(crate) fn before(&self) -> usize
        ensures { result ≡ self.now.before }
    {
        self.before
    }

    /// The set of the slots that hold a token without one of them, and how many are in it.
    pub(crate) fn without_slot(&self, slot: usize) -> (u64, usize)
        requires inside { slot < length self.now.values }
        requires there { has_bit self.now.there slot ≡ true }
        ensures chunk { IsChunk self.now.values result.0 result.1 }
        ensures tokens { there_from (has_bit result.0) 0 self.now.values
            ≡ there_from (has_bit self.now.there) 0 (take slot self.now.values)
            ++ there_from (has_bit self.now.there) (suc slot) (drop (suc slot) self.now.values) }
    {
        (words::without_bit(self.word, slot), self.count - 1)
    }

    /// The set of the slots that hold a token with one more, and how many are in it.
    pub(crate) fn with_slot(&self, slot: usize) -> (u64, usize)
        requires inside { slot < length self.now.values }
        requires free { has_bit self.now.there slot ≡ false }
        ensures chunk { IsChunk self.now.values result.0 result.1 }
        ensures tokens { (v : Value) → slice_get self.now.values slot ≡ Some v →
            there_from (has_bit result.0) 0 self.now.values
            ≡ there_from (has_bit self.now.there) 0 (take slot self.now.values)
            ++ (v ∷ there_from (has_bit self.now.there) (suc slot)
            (drop (suc slot) self.now.values)) }
    {
        (words::with_bit(self.word, slot), self.count + 1)
    }

    /// Whether the last of the slots, and so each of them, stands before a cut.
    pub(crate) fn stands_before(&self, key: &Value, cut: Cut) -> bool
        requires { Ascends self.now.values }
        ensures before { IsTrue result ↔ AllBefore cut key.now self.now.values }
        ensures room { HasRoom self.now.values }
    {
        let values = self.values();
        stands_before(&values[values.len() - 1], key, cut)
    }

    /// How many tokens stand before a slot.
    pub(crate) fn rank(&self, slot: usize) -> usize
        requires { slot ≤ length self.now.values }
        ensures rank { result ≡ length (there_from (has_bit self.now.there) 0 (take slot self.now.values)) }
        ensures bound { result ≤ ROOM }
    {
        let _room = self.values();
        words::count(self.word, slot)
    }

    /// The slot of the token of this index, by halving over how many stand before a slot.
    fn slot_of(&self, index: usize) -> usize
        requires { index < length (tokens_in_chunk self.now) }
        ensures inside { result < length self.now.values }
        ensures before { length (there_from (has_bit self.now.there) 0
            (take result self.now.values)) ≤ index }
        ensures after { index < length (there_from (has_bit self.now.there) 0
            (take (result + 1) self.now.values)) }
    {
        let values = self.values();
        let mut low = 0;
        let mut high = values.len();
        while high - low > 1 {
            let middle = low + (high - low) / 2;
            if self.rank(middle) <= index {
                low = middle;
            } else {
                high = middle;
            }
        }
        low
    }

    /// The token of this index.
    pub(crate) fn nth(&self, index: usize) -> &'a Value
        requires { index < length (tokens_in_chunk self.now) }
        ensures { slice_get (tokens_in_chunk self.now) index ≡ Some result.now }
    {
        let values = self.values();
        &values[self.slot_of(index)]
    }

    /// Tokens that stand side by side in the slots, the first of which has this index. After them may
    /// come more.
    pub(crate) fn run_from(&self, index: usize) -> &'a [Value]
        requires { index < length (tokens_in_chunk self.now) }
        ensures some { 0 < length result.now }
        ensures bound { index + length result.now ≤ length (tokens_in_chunk self.now) }
        ensures tokens { (k : ℕ) → k < length result.now →
            slice_get (tokens_in_chunk self.now) (index + k) ≡ slice_get result.now k }
    {
        let values = self.values();
        let slot = self.slot_of(index);
        let end = words::first_absent_from(self.there(), slot).min(values.len());
        &values[slot..end]
    }

    /// Puts copies of the tokens after others.
    pub(crate) fn append_to(&self, alloc: Global, tokens: &mut Vec<Value>) -> Result<(), NoMemory>
        ensures { IfOk result (λ _. tokens.new.items ≡ tokens.old.items ++ tokens_in_chunk self.now) }
    {
        copy_there(alloc, self.values(), self.there(), 0, tokens)
    }

    /// The first slot from this one on that holds a token.
    pub(crate) fn first_from(&self, slot: usize) -> Option<usize>
        ensures none { IfNone result (there_from (has_bit self.now.there) slot (drop slot self.now.values) ≡ []) }
        ensures before { IfSome result (λ s. there_from (has_bit self.now.there) 0 (take s self.now.values) ≡ there_from (has_bit self.now.there) 0 (take slot self.now.values)) }
        ensures inside { IfSome result (λ s. s < length self.now.values) }
        ensures there { IfSome result (λ s. has_bit self.now.there s ≡ true) }
    {
        let count = self.values().len();
        if slot >= count {
            return None;
        }
        let first = words::first_from(self.there(), slot);
        if first < count { Some(first) } else { None }
    }

    /// A slot from this one on that holds no token and has this value. It needs one comparison: of the
    /// values from this slot on none is below the value, so those before an equal one are equal too.
    pub(crate) fn free_from(&self, slot: usize, value: &Value) -> Option<usize>
        requires ascends { Ascends self.now.values }
        requires rest { NoneBelow value.now (drop slot self.now.values) }
        ensures inside { IfSome result (λ s. (slot ≤ s) × (s < length self.now.values)) }
        ensures free { IfSome result (λ s. has_bit self.now.there s ≡ false) }
        ensures here { IfSome result (λ s. slice_get self.now.values s ≡ Some value.now) }
        ensures equal { IfSome result (λ s. AllByRecursion (λ w. w ≡ value.now) (drop slot (take s self.now.values))) }
    {
        let values = self.values();
        if slot >= values.len() {
            return None;
        }
        let absent = words::first_absent_from(self.there(), slot);
        if absent < values.len() && same(&values[absent], value) {
            Some(absent)
        } else {
            None
        }
    }

    /// The tokens of the chunk, with one more before this slot.
    pub(crate) fn with_token(
        &self,
        alloc: Global,
        slot: usize,
        value: Value,
    ) -> Result<Vec<Value>, NoMemory>
        requires { slot ≤ length self.now.values }
        ensures size { IfOk result (λ tokens. (0 < length tokens.items) × (length tokens.items ≤ ROOM + 1)) }
        ensures tokens { IfOk result (λ tokens. tokens.items ≡ there_from (has_bit self.now.there) 0 (take slot self.now.values) ++ (value ∷ there_from (has_bit self.now.there) slot (drop slot self.now.values))) }
    {
        let values = self.values();
        let mut tokens = Vec::with_capacity(alloc, values.len() + 1)?;
        copy_there(alloc, &values[..slot], self.word, 0, &mut tokens)?;
        tokens.push(value)?;
        copy_there(alloc, &values[slot..], self.word, slot, &mut tokens)?;
        Ok(tokens)
    }
}

/// Puts copies of those of the values after the others whose index is in the set, where the first
/// has this index.
fn copy_there(
    alloc: Global,
    values: &[Value],
    there: u64,
    index: usize,
    tokens: &mut Vec<Value>,
) -> Result<(), NoMemory>
    requires { index + length values.now ≤ ROOM }
    ensures { IfOk result (λ _. tokens.new.items ≡ tokens.old.items ++ there_from (has_bit there) index values.now) }
{
    for (i, value) in values.iter().enumerate() {
        if words::is_in(there, index + i) {
            tokens.push(copy(alloc, value)?)?;
        }
    }
    Ok(())
}
