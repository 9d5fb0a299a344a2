//! The lists of the instances that are live and of those that aren't.
ghost use Rattle.std.specs.Prelude.{◌≡◌, ◌<◌, ◌^◌, ◌↔◌, ℕ, Some, Contains, length, filter, map, IfOk};
ghost use Rattle.std.specs.List.Sorted.{IsStrictlyIncreasing};
ghost use Rattle.rn_model.specs.Markings.{Instance, IsThere, instance_at};
ghost use Rattle.rn_model.specs.Liveness.{IsLive};
ghost use Rattle.rn_live.specs.Rooms.{is_marked};
ghost use Rattle.rn_live.specs.link.Marks.{Marked, is_unmarked};

use crate::room::LiveRoom;
use rn_items::NoMemory;
use rn_model::System;
use rn_table::Table;
use std::alloc::Global;

/// The kept instances that are live, ascending. Each instance has fewer than 2^32 places, as in a
/// good system.
pub fn live(alloc: Global, system: &System, table: &Table) -> Result<Vec<u32>, NoMemory>
    requires { (n : ℕ) (i : Instance) →
        instance_at table.now.marking n ≡ Some i → length i.places < 2 ^ 32 }
    ensures ascending { IfOk result (λ numbers. IsStrictlyIncreasing numbers.items) }
    ensures live { IfOk result (λ numbers. (n : ℕ) →
        Contains numbers.items n ↔ IsLive system.now table.now.marking n) }
{
    let numbers = table.instances()?;
    let room = live_room(alloc, system, table)?;
    those_marked(alloc, numbers.as_slice(), &room)
}

/// The kept instances that aren't live, ascending: just these may be dropped. Each instance
/// has fewer than 2^32 places, as in a good system.
pub fn garbage(alloc: Global, system: &System, table: &Table) -> Result<Vec<u32>, NoMemory>
    requires { (n : ℕ) (i : Instance) →
        instance_at table.now.marking n ≡ Some i → length i.places < 2 ^ 32 }
    ensures ascending { IfOk result (λ numbers. IsStrictlyIncreasing numbers.items) }
    ensures dead { IfOk result (λ numbers. (n : ℕ) →
        Contains numbers.items n ↔
        (IsThere table.now.marking n × ¬ IsLive system.now table.now.marking n)) }
{
    let numbers = table.instances()?;
    let room = live_room(alloc, system, table)?;
    those_unmarked(alloc, numbers.as_slice(), &room)
}

/// Room in which the live instances are marked.
fn live_room(alloc: Global, system: &System, table: &Table) -> Result<LiveRoom, NoMemory>
    requires { (n : ℕ) (i : Instance) →
        instance_at table.now.marking n ≡ Some i → length i.places < 2 ^ 32 }
    ensures ascending { IfOk result (λ room.
        IsStrictlyIncreasing (map (λ i. i.number) table.now.marking.instances)) }
    ensures marks { IfOk result (λ room. (n : ℕ) →
        Marked room.marks n ↔ IsLive system.now table.now.marking n) }
{
    let mut room = LiveRoom::new(alloc, system)?;
    room.reserve(table.next())?;
    room.mark(system, table);
    Ok(room)
}

/// Those of the numbers that are marked.
fn those_marked(alloc: Global, numbers: &[u32], room: &LiveRoom) -> Result<Vec<u32>, NoMemory>
    ensures { IfOk result (λ those.
        those.items ≡ filter (is_marked room.now.marks) numbers.now) }
{
    let mut those = Vec::new(alloc);
    for number in numbers {
        if room.is_live(*number) {
            those.push(*number)?;
        }
    }
    Ok(those)
}

/// Those of the numbers that aren't marked.
fn those_unmarked(alloc: Global, numbers: &[u32], room: &LiveRoom) -> Result<Vec<u32>, NoMemory>
    ensures { IfOk result (λ those.
        those.items ≡ filter (is_unmarked room.now.marks) numbers.now) }
{
    let mut those = Vec::new(alloc);
    for number in numbers {
        if !room.is_live(*number) {
            those.push(*number)?;
        }
    }
    Ok(those)
}
