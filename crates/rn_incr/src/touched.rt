//! How many of the instances that reach a changed one may start a firing.
ghost use Rattle.std.specs.Prelude.{◌≡◌, ◌≢◌, false, Contains, AllPairs};
ghost use Rattle.std.specs.Option.{option_map_or};
ghost use Rattle.rn_model.specs.Markings.{net_of};
ghost use Rattle.rn_model.specs.Systems.{may_start};
ghost use Rattle.rn_incr.specs.Lists.{IsNumberOf, MayStartIn};

use rn_model::System;
use rn_table::{Table, starts};

// Whether an instance is kept and its net has a transition without uplink.
fn starts_at(system: &System, table: &Table, number: u32) -> bool
    ensures { result ≡ option_map_or (may_start system.now) (net_of table.now.marking number) false }
{
    match table.net_of(number) {
        Some(net) => starts(system, net),
        None => false,
    }
}

/// How many of these may start.
pub(crate) fn count_starting(system: &System, table: &Table, numbers: &[u32]) -> u64
    requires { AllPairs (λ m n. m ≢ n) numbers.now }
    ensures { IsNumberOf
        (λ n. MayStartIn system.now table.now.marking n × Contains numbers.now n) result }
{
    let mut count = 0;
    for number in numbers {
        if starts_at(system, table, *number) {
            count += 1;
        }
    }
    count
}
