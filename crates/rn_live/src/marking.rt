//! The marks of the live instances, by a list of those that were found and not gone through yet.
ghost use Rattle.std.specs.Prelude.{◌≡◌, ◌<◌, ◌≤◌, ◌^◌, ◌↔◌, ℕ, Some, [], length, vec_capacity};
ghost use Rattle.rn_model.specs.Liveness.{IsLive};
ghost use Rattle.rn_model.specs.Markings.{Instance, instance_at};
ghost use Rattle.rn_live.specs.Rooms.{starts_of};
ghost use Rattle.rn_live.specs.link.Marks.{Marked};

use crate::found::{Found, unmark};
use crate::holders::visit_holder;
use crate::starting::visit_starts;
use rn_model::System;
use rn_table::Table;

/// Marks the live instances and no others. As many numbers have room to wait as have a mark, and
/// each kept instance has one.
pub(crate) fn mark_live(system: &System, starting: &[bool], table: &Table, found: &mut Found)
    requires places { (n : ℕ) (i : Instance) →
        instance_at table.now.marking n ≡ Some i → length i.places < 2 ^ 32 }
    requires of_system { starting.now ≡ starts_of system.now }
    requires below { table.now.marking.next ≤ length found.old.marks.items }
    requires room { length found.old.marks.items ≤ vec_capacity found.old.waiting }
    requires none_waits { found.old.waiting.items ≡ [] }
    ensures marks { (n : ℕ) →
        Marked found.new.marks.items n ↔ IsLive system.now table.now.marking n }
    ensures size { length found.new.marks.items ≡ length found.old.marks.items }
    ensures capacity { vec_capacity found.new.waiting ≡ vec_capacity found.old.waiting }
    ensures none_waits { found.new.waiting.items ≡ [] }
{
    unmark(&mut found.marks);
    visit_starts(table.next(), starting, table, found);
    while let Some(number) = found.waiting.pop() {
        visit_holder(number, table, found);
    }
}
