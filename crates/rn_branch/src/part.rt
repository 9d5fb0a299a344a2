//! Tokens by a part of them. By its order a bag finds the tuples with some first part, but not
//! those with another part. So tokens are gone through one after the other, as they stand side by
//! side in memory, each compared in this part alone (`docs/SEARCH.md`, 'A binding grows by
//! decisions').
ghost use Rattle.std.specs.Prelude.{◌≡◌, ◌<◌, ◌≤◌, ◌↔◌, ℕ, IsTrue, Some, length, slice_get};
ghost use Rattle.rn_value.specs.declared.value.Value.{Value as Token};
ghost use Rattle.rn_branch.specs.Parts.{LacksPart, part_of};

use rn_bag::Bag;
use rn_value::{Value, same};

// Whether two values are the same. Numbers are the commonest by far.
fn are_same(a: &Value, b: &Value) -> bool
    ensures { IsTrue result ↔ (a.now ≡ b.now) }
{
    match (a, b) {
        (Value::Int(m), Value::Int(n)) => m == n,
        _ => same(a, b),
    }
}

// Whether a value is a tuple with this part at an index.
fn has_part(value: &Value, i: usize, part: &Value) -> bool
    ensures { IsTrue result ↔ (part_of i value.now ≡ Some part.now) }
{
    match value {
        Value::Tuple(parts) => match parts.get().get(i) {
            Some(other) => are_same(other, part),
            None => false,
        },
        _ => false,
    }
}

// How many of these values, up to the first that is a tuple with this part at an index, are none.
fn count_lacking(values: &[Value], i: usize, part: &Value) -> usize
    ensures bound { result ≤ length values.now }
    ensures lacking { (k : ℕ) (v : Token) → k < result → slice_get values.now k ≡ Some v → LacksPart i part.now v }
{
    for (k, value) in values.iter().enumerate() {
        if has_part(value, i, part) {
            return k;
        }
    }
    values.len()
}

/// The index of the first token from one on that is a tuple with this part at an index, or one past the
/// last token.
pub(crate) fn next_with_part(held: &Bag, from: usize, i: usize, part: &Value) -> usize
    ensures { (k : ℕ) (v : Token) → from ≤ k → k < result → slice_get held.now k ≡ Some v → LacksPart i part.now v }
{
    let count = held.len();
    let mut index = from;
    while index < count {
        let run = held.run_from(index);
        let lacking = count_lacking(run, i, part);
        index += lacking;
        if lacking < run.len() {
            return index;
        }
    }
    from.max(count)
}
