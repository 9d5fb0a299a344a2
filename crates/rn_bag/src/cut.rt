//! Where an ascending list of values is cut in two.
ghost use Rattle.std.specs.Prelude.{◌≡◌, [], ◌∷◌};
ghost use Rattle.std.specs.Ordering.{is_lt};
ghost use Rattle.rn_value.specs.Order.{value_cmp};
ghost use Rattle.rn_value.specs.declared.value.Value.TheVariants as Value;
ghost use Rattle.rn_bag.specs.Cuts.{has_first, is_before};

use rn_value::{Value, cmp};

/// A cut at a key: before the key or after it, or before or after the tuples with that first part.
#[derive(Clone, Copy)]
pub(crate) enum Cut {
    Below,
    UpTo,
    BelowFirst,
    UpToFirst,
}

/// Whether a value stands before the cut at a key.
pub(crate) fn stands_before(value: &Value, key: &Value, cut: Cut) -> bool
    ensures { result ≡ is_before cut key.now value.now }
{
    match cut {
        Cut::Below => cmp(value, key).is_lt(),
        Cut::UpTo => !cmp(key, value).is_lt(),
        Cut::BelowFirst => is_below_first(value, key),
        Cut::UpToFirst => is_below_first(value, key) || has_first(value, key),
    }
}

/// Whether a value is below each tuple with this first part, the least of which has no other part.
fn is_below_first(value: &Value, first: &Value) -> bool
    ensures { result ≡ is_lt (value_cmp value.now (Value.Tuple (first.now ∷ []))) }
{
    match value {
        Value::Int(_) | Value::Text(_) => true,
        Value::Tuple(parts) => match parts.as_slice() {
            [] => true,
            [part, ..] => cmp(part, first).is_lt(),
        },
        Value::List(_) | Value::Inst(_) => false,
    }
}

/// Whether a value is a tuple with this first part.
fn has_first(value: &Value, first: &Value) -> bool
    ensures { result ≡ has_first first.now value.now }
{
    match value {
        Value::Tuple(parts) => match parts.as_slice() {
            [] => false,
            [part, ..] => cmp(first, part).is_eq(),
        },
        _ => false,
    }
}
