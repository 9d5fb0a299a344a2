//! The pages of a table, and what changes them.
ghost use Rattle.std.specs.Prelude.{◌≡◌, ◌<◌, ◌≤◌, ◌+◌, ◌*◌, ◌^◌, ℕ, [], ◌∷◌, ◌++◌, length, map, find, nat_le, OnOk};
ghost use Rattle.std.specs.List.{AllByRecursion};
ghost use Rattle.rn_model.specs.Markings.{fresh_instance};
ghost use Rattle.rn_table.specs.Changes.{new_from};
ghost use Rattle.rn_table.specs.link.Leaves.{Ascending, HasSortedPlaces, IsTable, instances_in, page_of, starting_from};
ghost use Rattle.rn_table.specs.link.Steps.{after_step, after_steps};
ghost use Rattle.rn_table.specs.Tables.{started};
ghost use Rattle.rn_model.specs.Limits.{greatest_instance};

use crate::edits::Edit;
use crate::instance::Inst;
use crate::leaf::bit;
use crate::leaves::Leaves;
use crate::nets::starts;
use rn_bag::words::{self, ROOM};
use rn_items::NoMemory;
use rn_model::{System, places_of};

/// The index of the page of a number.
pub(crate) fn leaf_of(number: u32) -> usize
    ensures { result ≡ page_of number }
{
    number.saturating_sub(1) as usize / ROOM
}

/// The first number from this one on that may start.
pub(crate) fn first_start(leaves: &Leaves, from: u32) -> Option<u32>
    requires { ROOM * length leaves.now < 2 ^ 32 }
    ensures { result ≡ find (λ n. nat_le from n) (starting_from 0 leaves.now) }
{
    let mut index = bit(from);
    for at in leaf_of(from)..leaves.len() {
        let found = words::first_from(leaves.starting(at), index);
        if found < ROOM {
            return Some((ROOM * at + found + 1) as u32);
        }
        index = 0;
    }
    None
}

/// The last page has room for the next number from now on.
fn make_room(leaves: &mut Leaves, next: u32) -> Result<(), NoMemory>
    requires { IsTable next leaves.old }
    ensures table { OnOk result (IsTable next leaves.new) }
    ensures size { OnOk result (length leaves.new ≡ page_of next + 1) }
    ensures instances { OnOk result (instances_in leaves.new ≡ instances_in leaves.old) }
    ensures starting { OnOk result (starting_from 0 leaves.new ≡ starting_from 0 leaves.old) }
{
    if leaves.len() != leaf_of(next) {
        return Ok(());
    }
    leaves.push()?;
    Ok(())
}

/// One more instance, with the initial tokens of its net.
fn add_one(leaves: &mut Leaves, system: &System, next: u32, net: u32) -> Result<(), NoMemory>
    requires table { IsTable next leaves.old }
    requires room { next ≤ greatest_instance }
    ensures table { OnOk result (IsTable (next + 1) leaves.new) }
    ensures instances { OnOk result (instances_in leaves.new ≡ instances_in leaves.old ++ fresh_instance system.now next net ∷ []) }
    ensures starting { OnOk result (starting_from 0 leaves.new ≡ starting_from 0 leaves.old ++ started system.now next (net ∷ [])) }
{
    let alloc = leaves.allocator();
    let inst = Inst::fresh(alloc, next, net, places_of(system, net))?;
    make_room(leaves, next)?;
    let last = leaves.len() - 1;
    leaves.add(last, inst, starts(system, net))?;
    Ok(())
}

/// Instances of these nets, with the next numbers.
pub(crate) fn add_all(
    leaves: &mut Leaves,
    system: &System,
    next: u32,
    made: &[u32],
) -> Result<(), NoMemory>
    requires table { IsTable next leaves.old }
    requires room { next + length made.now ≤ greatest_instance + 1 }
    ensures table { OnOk result (IsTable (next + length made.now) leaves.new) }
    ensures instances { OnOk result (instances_in leaves.new ≡ instances_in leaves.old ++ new_from system.now next made.now) }
    ensures starting { OnOk result (starting_from 0 leaves.new ≡ starting_from 0 leaves.old ++ started system.now next made.now) }
{
    let mut number = next;
    for net in made {
        add_one(leaves, system, number, *net)?;
        number += 1;
    }
    Ok(())
}

/// One token is taken from a place of an instance or put there.
pub(crate) fn edit_one(leaves: &mut Leaves, edit: &Edit<'_>) -> Result<(), NoMemory>
    requires { (n : ℕ) × IsTable n leaves.old }
    ensures table { OnOk result ((n : ℕ) → IsTable n leaves.old → IsTable n leaves.new) }
    ensures instances { OnOk result (instances_in leaves.new ≡ map (after_step edit.now) (instances_in leaves.old)) }
    ensures starting { OnOk result (starting_from 0 leaves.new ≡ starting_from 0 leaves.old) }
{
    let at = leaf_of(edit.inst);
    if at >= leaves.len() {
        return Ok(());
    }
    if edit.inst == 0 {
        return Ok(());
    }
    leaves.edit(at, edit)?;
    Ok(())
}

/// The same of each of these tokens, one after another.
fn edit_all(leaves: &mut Leaves, edits: &[Edit<'_>]) -> Result<(), NoMemory>
    requires { (n : ℕ) × IsTable n leaves.old }
    ensures table { OnOk result ((n : ℕ) → IsTable n leaves.old → IsTable n leaves.new) }
    ensures instances { OnOk result (instances_in leaves.new ≡ after_steps edits.now (instances_in leaves.old)) }
    ensures starting { OnOk result (starting_from 0 leaves.new ≡ starting_from 0 leaves.old) }
{
    for edit in edits {
        edit_one(leaves, edit)?;
    }
    Ok(())
}

/// New instances come, and then each of these tokens is taken or put.
pub(crate) fn change_all(
    leaves: &mut Leaves,
    system: &System,
    next: u32,
    made: &[u32],
    edits: &[Edit<'_>],
) -> Result<(), NoMemory>
    requires table { IsTable next leaves.old }
    requires room { next + length made.now ≤ greatest_instance + 1 }
    ensures table { OnOk result (IsTable (next + length made.now) leaves.new) }
    ensures instances { OnOk result (instances_in leaves.new ≡ after_steps edits.now (instances_in leaves.old ++ new_from system.now next made.now)) }
    ensures ascending { OnOk result (Ascending (instances_in leaves.old ++ new_from system.now next made.now)) }
    ensures sorted { OnOk result (AllByRecursion HasSortedPlaces (instances_in leaves.old ++ new_from system.now next made.now)) }
    ensures starting { OnOk result (starting_from 0 leaves.new ≡ starting_from 0 leaves.old ++ started system.now next made.now) }
{
    add_all(leaves, system, next, made)?;
    edit_all(leaves, edits)?;
    Ok(())
}
