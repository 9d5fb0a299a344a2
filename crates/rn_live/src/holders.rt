//! The instances that occur in the tokens of an instance.
ghost use Rattle.std.specs.Prelude.{◌≡◌, ◌<◌, ◌^◌, IfSome, Some, length, slice_get};
ghost use Rattle.std.specs.List.{list_any};
ghost use Rattle.rn_model.specs.Liveness.{mentions};
ghost use Rattle.rn_live.specs.link.Marks.{FindsIn, HasRoom, places_of, holds};

use crate::found::Found;
use crate::visiting::{visit, visit_all};
use rn_bag::Bag;
use rn_table::Table;
use rn_value::Value;

// The first of some values, where it may hold others.
fn first_nested(values: &[Value]) -> Option<&Value>
    ensures { IfSome result (λ value. slice_get values.now 0 ≡ Some value.now) }
{
    match values.first() {
        Some(value) => match value {
            Value::Tuple(_) | Value::List(_) => Some(value),
            _ => None,
        },
        None => None,
    }
}

/// Finds each kept instance that occurs in a token. It looks at tokens as they stand side by side,
/// but of equal tuples and lists at one.
#[tactic(auto, using(crate::proofs::FindLemmas::still_room))]
fn visit_bag(bag: &Bag, table: &Table, found: &mut Found)
    requires { HasRoom found.old }
    ensures { FindsIn table.now.marking
        (λ n. list_any (λ token. mentions token n) bag.now) found.old found.new }
{
    let mut index = 0;
    'runs: while index < bag.len() {
        let run = bag.run_from(index);
        match first_nested(run) {
            Some(token) => {
                visit(token, table, found);
                index = bag.next_other(index);
            }
            None => {
                visit_all(run, table, found);
                index += run.len();
            }
        }
    }
}

/// Finds each kept instance that occurs in a token of an instance.
#[tactic(auto, using(crate::proofs::FindLemmas::still_room))]
pub(crate) fn visit_holder(number: u32, table: &Table, found: &mut Found)
    requires places { length (places_of table.now.marking number) < 2 ^ 32 }
    requires room { HasRoom found.old }
    ensures { FindsIn table.now.marking (holds table.now.marking number) found.old found.new }
{
    for place in 0..u32::MAX {
        let Some(bag) = table.bag(number, place) else {
            return;
        };
        visit_bag(bag, table, found);
    }
}
