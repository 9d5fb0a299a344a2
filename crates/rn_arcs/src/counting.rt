//! Counting in ascending values.
ghost use Rattle.std.specs.Prelude.{◌≡◌};
ghost use Rattle.std.specs.List.Sorted.{IsSorted};
ghost use Rattle.std.specs.Ordering.{is_le, is_lt};
ghost use Rattle.rn_value.specs.Order.{value_cmp};
ghost use Rattle.rn_model.specs.Lists.{count_of};

use rn_value::{Value, cmp};

fn is_below(value: &Value, key: &Value) -> bool
    ensures { result ≡ is_lt (value_cmp value.now key.now) }
{
    cmp(value, key).is_lt()
}

fn is_up_to(value: &Value, key: &Value) -> bool
    ensures { result ≡ is_le (value_cmp value.now key.now) }
{
    cmp(value, key).is_le()
}

/// How often a value is among these, which ascend. It halves, and looks at few of them.
pub(crate) fn count_among(values: &[Value], value: &Value) -> u64
    requires { IsSorted value_cmp values.now }
    ensures { result ≡ count_of value.now values.now }
{
    let below = values.partition_point(|other| is_below(other, value));
    let up_to = values.partition_point(|other| is_up_to(other, value));
    (up_to - below) as u64
}
