//! The lines of marks, place by place and instance by instance.
ghost use Rattle.std.specs.Prelude.{◌≡◌, ◌++◌, ◌<◌, ◌^◌, ℕ, Some, flat_map, length, IfOk, OnOk};
ghost use Rattle.rn_model.specs.Liveness.{LivePart};
ghost use Rattle.rn_model.specs.Markings.{Instance, instance_at};
ghost use Rattle.rn_live.specs.link.Marks.{places_of};
ghost use Rattle.rn_end_marking.specs.link.Lines.{line_of, lines_from, lines_at};

use rn_bag::Bag;
use rn_items::{Items, NoMemory};
use rn_live::live;
use rn_model::{MarkLine, MarkLines, Repeats, System};
use rn_table::Table;
use rn_value::Vals;
use std::alloc::Global;

/// Values in a row, equal neighbours counted.
fn counted(alloc: Global, values: Vals) -> Result<Repeats, NoMemory>
    ensures { IfOk result (λ repeats. repeats ≡ values) }
{
    let mut repeats = Repeats::new(alloc);
    for value in values.into_vec() {
        repeats.push(value, 1)?;
    }
    Ok(repeats)
}

/// Adds the line of a place, where it holds tokens.
fn put_line(
    alloc: Global,
    number: u32,
    net: u32,
    place: u32,
    bag: &Bag,
    lines: &mut Vec<MarkLine>,
) -> Result<(), NoMemory>
    ensures { OnOk result (lines.new.items
        ≡ lines.old.items ++ line_of number net place bag.now) }
{
    let values = counted(alloc, bag.sorted_list()?)?;
    if values.is_empty() {
        return Ok(());
    }
    lines.push(MarkLine {
        inst: number,
        net,
        place,
        values,
    })?;
    Ok(())
}

/// Adds the lines of an instance of this net, place by place.
fn put_places(
    alloc: Global,
    table: &Table,
    number: u32,
    net: u32,
    lines: &mut Vec<MarkLine>,
) -> Result<(), NoMemory>
    requires { length (places_of table.now.marking number) < 2 ^ 32 }
    ensures { OnOk result (lines.new.items
        ≡ lines.old.items ++ lines_from number net 0 (places_of table.now.marking number)) }
{
    for place in 0..u32::MAX {
        let Some(bag) = table.bag(number, place) else {
            return Ok(());
        };
        put_line(alloc, number, net, place, bag, lines)?;
    }
    Ok(())
}

/// Adds the lines of an instance, where it is kept.
fn put_instance(
    alloc: Global,
    table: &Table,
    number: u32,
    lines: &mut Vec<MarkLine>,
) -> Result<(), NoMemory>
    requires { length (places_of table.now.marking number) < 2 ^ 32 }
    ensures { OnOk result (lines.new.items
        ≡ lines.old.items ++ lines_at table.now.marking number) }
{
    match table.net_of(number) {
        Some(net) => put_places(alloc, table, number, net, lines),
        None => Ok(()),
    }
}

/// The lines of instances, one after the other.
fn lines_of(alloc: Global, table: &Table, numbers: &[u32]) -> Result<Vec<MarkLine>, NoMemory>
    requires { (n : ℕ) → length (places_of table.now.marking n) < 2 ^ 32 }
    ensures { IfOk result (λ lines.
        lines.items ≡ flat_map (lines_at table.now.marking) numbers.now) }
{
    let mut lines = Vec::new(alloc);
    for number in numbers {
        put_instance(alloc, table, *number, &mut lines)?;
    }
    Ok(lines)
}

/// The live part of a table: a line for each place of a live instance that holds tokens, by
/// instance and place, with the tokens in ascending order. Each kept instance has fewer than 2^32
/// places, as in a good system.
pub fn live_part(alloc: Global, system: &System, table: &Table) -> Result<MarkLines, NoMemory>
    requires { (n : ℕ) (i : Instance) →
        instance_at table.now.marking n ≡ Some i → length i.places < 2 ^ 32 }
    ensures { IfOk result (λ lines. LivePart system.now table.now.marking lines) }
{
    let numbers = live(alloc, system, table)?;
    let lines = lines_of(alloc, table, numbers.as_slice())?;
    Ok(Items::from_vec(lines))
}
