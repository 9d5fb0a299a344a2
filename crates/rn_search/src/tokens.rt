//! Tokens of a bag of which only the first of equal ones counts. A bag has its tokens in ascending
//! order, so equal ones stand side by side: one look at the token before says whether one is the
//! first, and how many follow that equal it is asked of the bag (`docs/SEARCH.md`, 'A binding grows
//! by decisions').
ghost use Rattle.std.specs.Prelude.{◌≡◌, ◌≤◌, ◌<◌, ◌↔◌, ℕ, IsTrue, None, Some, slice_get, ◌+◌};
ghost use Rattle.std.specs.Prelude.{Contains, IfSome, IfNone};
ghost use Rattle.std.specs.Option.{option_copied};
ghost use Rattle.rn_search.specs.Points.{first_token};

use rn_bag::Bag;
use rn_value::{Value, same};

// The token of an index, where no earlier one equals it.
fn first_token(bag: &Bag, index: usize) -> Option<&Value>
    ensures { option_copied result ≡ first_token bag.now index }
{
    if index >= bag.len() {
        return None;
    }
    let Some(token) = bag.get(index) else {
        return None;
    };
    if index > 0 && is_at(bag, index - 1, token) {
        return None;
    }
    Some(token)
}

/// The token at a number after an index, where no earlier one of the bag equals it.
pub(crate) fn first_token_after(bag: &Bag, from: usize, a: usize) -> Option<&Value>
    ensures { option_copied result ≡ first_token bag.now (from + a) }
{
    let count = bag.len();
    if from >= count {
        return None;
    }
    if a >= count - from {
        return None;
    }
    first_token(bag, from + a)
}

/// How many tokens from an index on equal the one before them.
pub(crate) fn repeats_from(bag: &Bag, index: usize) -> usize
    ensures { (k : ℕ) → index ≤ k → k < index + result → first_token bag.now k ≡ None }
{
    if index == 0 {
        return 0;
    }
    bag.next_other(index - 1).saturating_sub(index)
}

/// The first index at which a token stands, where it is there.
pub(crate) fn index_of(bag: &Bag, token: &Value) -> Option<usize>
    ensures first { IfSome result (λ k. first_token bag.now k ≡ Some token.now) }
    ensures absent { IfNone result (¬ Contains bag.now token.now) }
{
    // For its clause: the tokens of the bag are sorted.
    let _count = bag.len();
    let from = bag.first_from(token);
    if is_at(bag, from, token) {
        Some(from)
    } else {
        None
    }
}

// Whether a token stands at an index.
fn is_at(bag: &Bag, index: usize, token: &Value) -> bool
    ensures { IsTrue result ↔ (slice_get bag.now index ≡ Some token.now) }
{
    match bag.get(index) {
        Some(other) => same(other, token),
        None => false,
    }
}
