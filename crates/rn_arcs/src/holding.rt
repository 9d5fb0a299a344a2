//! What a table holds at a place of an instance, without a copy of any bag.
ghost use Rattle.std.specs.Prelude.{◌≡◌, ◌<◌, ◌-◌, ◌↔◌};
ghost use Rattle.std.specs.Prelude.{[], IsTrue, unwrap_or};
ghost use Rattle.std.specs.List.Sorted.{IsSorted};
ghost use Rattle.std.specs.Option.{option_copied};
ghost use Rattle.rn_value.specs.Order.{value_cmp};
ghost use Rattle.rn_model.specs.Lists.{count_of, IsWithin};
ghost use Rattle.rn_model.specs.Markings.{tokens};

use rn_bag::Bag;
use rn_table::Table;
use rn_value::{InstRef, Vals, Value, same};

/// How often a value is at a place of an instance before the firing. An instance that the firing
/// makes holds nothing yet, and nor does one that isn't there. It takes no memory.
pub fn held(table: &Table, inst: &InstRef, place: u32, value: &Value) -> u64
    ensures { result ≡ count_of value.now (tokens table.now.marking inst.now place) }
{
    count_in(bag_at(table, inst, place), value)
}

/// How often a value is at a place of an instance, less how often it is among these, and 0 where it
/// is among these more often. It looks at each of these once, and takes no memory.
pub fn left(table: &Table, inst: &InstRef, place: u32, value: &Value, taken: &[Value]) -> u64
    ensures { result ≡ count_of value.now (tokens table.now.marking inst.now place)
        - count_of value.now taken.now }
{
    let mut left = held(table, inst, place, value);
    for other in taken {
        if same(value, other) {
            left = left.saturating_sub(1);
        }
    }
    left
}

/// The tokens of a place of an instance, where there are any.
pub fn bag_at<'a>(table: &'a Table, inst: &InstRef, place: u32) -> Option<&'a Bag>
    ensures { unwrap_or (option_copied result) [] ≡ tokens table.now.marking inst.now place }
{
    match inst {
        InstRef::Old(number) => table.bag(*number, place),
        InstRef::New(_, _) => None,
    }
}

/// How often a value is there.
pub(crate) fn count_in(bag: Option<&Bag>, value: &Value) -> u64
    ensures { result ≡ count_of value.now (unwrap_or (option_copied bag.entry) []) }
{
    match bag {
        None => 0,
        Some(bag) => bag.count(value),
    }
}

/// Whether each of these, which ascend, is there as often.
pub(crate) fn has_all_in(bag: Option<&Bag>, sorted: &Vals) -> bool
    requires { IsSorted value_cmp sorted.now }
    ensures { IsTrue result ↔ IsWithin sorted.now (unwrap_or (option_copied bag.entry) []) }
{
    match bag {
        None => sorted.is_empty(),
        Some(bag) => bag.has_all(sorted),
    }
}

/// Whether these are just the tokens that are there, in ascending order.
pub(crate) fn is_list_of(bag: Option<&Bag>, values: &[Value]) -> bool
    ensures { IsTrue result ↔ (values.now ≡ unwrap_or (option_copied bag.entry) []) }
{
    match bag {
        None => values.is_empty(),
        Some(bag) => has_tokens(bag, values),
    }
}

fn has_tokens(bag: &Bag, values: &[Value]) -> bool
    ensures { IsTrue result ↔ (values.now ≡ bag.now) }
{
    if bag.len() != values.len() {
        return false;
    }
    for index in 0..values.len() {
        let Some(token) = bag.get(index) else {
            return false;
        };
        if !same(token, &values[index]) {
            return false;
        }
    }
    true
}
