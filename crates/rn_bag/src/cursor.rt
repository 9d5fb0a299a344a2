//! Looking tokens up, and going through a bag by the indices of its tokens in ascending order. Nothing
//! but `with_first` takes memory, and nothing walks through tokens that it isn't asked for.
ghost use Rattle.std.specs.Prelude.{◌≡◌, ◌≢◌, ◌+◌, ◌-◌, ◌<◌, ◌≤◌, ◌↔◌, ℕ, take, drop, length, filter, IsTrue, IfOk, slice_get, Some};
ghost use Rattle.std.specs.List.Sorted.{IsSorted};
ghost use Rattle.rn_value.specs.Order.{value_cmp};
ghost use Rattle.rn_value.specs.declared.value.Value.{Value};
ghost use Rattle.rn_model.specs.Lists.{count_of, IsWithin};
ghost use Rattle.rn_bag.specs.Cuts.{AllBelow, NoneBelow, has_first};

use crate::bag::Bag;
use crate::cut::Cut;
use crate::seek::slot_of;
use rn_items::{Items, NoMemory};
use rn_value::{Vals, Value, copy, same};
use std::ops::Range;

impl Bag {
    /// Whether there is no token.
    pub fn is_empty(&self) -> bool
        ensures { IsTrue result ↔ (length self.now ≡ 0) }
    {
        self.len() == 0
    }

    /// How often a value is in the bag.
    pub fn count(&self, value: &Value) -> u64
        ensures { result ≡ count_of value.now self.now }
    {
        (self.cut_at(value, Cut::UpTo) - self.cut_at(value, Cut::Below)) as u64
    }

    /// Whether a value is in the bag. It looks it up once.
    pub fn contains(&self, value: &Value) -> bool
        ensures { IsTrue result ↔ (0 < count_of value.now self.now) }
    {
        match self.get(self.cut_at(value, Cut::Below)) {
            Some(other) => same(other, value),
            None => false,
        }
    }

    /// Whether each value is in the bag as often as it is among these, which ascend.
    pub fn has_all(&self, sorted: &Vals) -> bool
        requires { IsSorted value_cmp sorted.now }
        ensures { IsTrue result ↔ IsWithin sorted.now self.now }
    {
        let values = sorted.as_slice();
        if let [value] = values {
            return self.contains(value);
        }
        for (i, value) in values.iter().enumerate() {
            if i > 0 && same(&values[i - 1], value) {
                continue;
            }
            if self.count(value) < count_among(values, value) {
                return false;
            }
        }
        true
    }

    /// The first index at or after a value: the tokens before it are those below the value.
    pub fn first_from(&self, value: &Value) -> usize
        ensures bound { result ≤ length self.now }
        ensures below { AllBelow value.now (take result self.now) }
        ensures rest { NoneBelow value.now (drop result self.now) }
    {
        self.cut_at(value, Cut::Below)
    }

    /// The first index after this one whose token is another, or how many tokens there are.
    pub fn next_other(&self, index: usize) -> usize
        ensures bound { result ≤ length self.now }
        ensures later { index < length self.now → index < result }
        ensures equal { (k : ℕ) → index ≤ k → k < result → slice_get self.now k ≡ slice_get self.now index }
        ensures other { (k : ℕ) → result ≤ k → k < length self.now → slice_get self.now k ≢ slice_get self.now index }
        ensures past { length self.now ≤ index → result ≡ length self.now }
    {
        match self.get(index) {
            None => self.len(),
            Some(value) => self.cut_at(value, Cut::UpTo),
        }
    }

    /// Tokens that stand side by side in memory, from the one of this index on: at least that one,
    /// where it is there. After them may come more. So all tokens are gone through without looking
    /// each of them up.
    pub fn run_from(&self, index: usize) -> &[Value]
        ensures some { index < length self.now → 0 < length result.now }
        ensures bound { index < length self.now → index + length result.now ≤ length self.now }
        ensures tokens { (k : ℕ) → k < length result.now →
            slice_get self.now (index + k) ≡ slice_get result.now k }
    {
        if index >= self.len() {
            return &[];
        }
        self.run(index)
    }

    /// The indices at which the tuples with this first part stand.
    pub fn range_of_first(&self, first: &Value) -> Range<usize>
        ensures order { result.start ≤ result.end }
        ensures bound { result.end ≤ length self.now }
        ensures exact { (k : ℕ) (v : Value) → slice_get self.now k ≡ Some v → (IsTrue (has_first first.now v) ↔ ((result.start ≤ k) × (k < result.end))) }
        ensures tokens { take (result.end - result.start) (drop result.start self.now) ≡ filter (has_first first.now) self.now }
    {
        let start = self.cut_at(first, Cut::BelowFirst);
        let end = self.cut_at(first, Cut::UpToFirst);
        start..end
    }

    /// The tokens that are tuples with this first part, ascending, with repeats.
    pub fn with_first(&self, first: &Value) -> Result<Vals, NoMemory>
        ensures { IfOk result (λ tokens. tokens ≡ filter (has_first first.now) self.now) }
    {
        let range = self.range_of_first(first);
        self.copies(range.start, range.end)
    }

    /// Copies of the tokens from an index up to another.
    fn copies(&self, start: usize, end: usize) -> Result<Vals, NoMemory>
        requires order { start ≤ end }
        requires bound { end ≤ length self.now }
        ensures { IfOk result (λ tokens. tokens ≡ take (end - start) (drop start self.now)) }
    {
        let alloc = self.allocator();
        let mut tokens = Vec::with_capacity(alloc, end - start)?;
        for index in start..end {
            tokens.push(copy(alloc, self.token(index))?)?;
        }
        Ok(Items::from_vec(tokens))
    }
}

/// How often a value is among these, which ascend.
fn count_among(values: &[Value], value: &Value) -> u64
    requires { IsSorted value_cmp values.now }
    ensures { result ≡ count_of value.now values.now }
{
    (slot_of(values, value, Cut::UpTo) - slot_of(values, value, Cut::Below)) as u64
}
