//! Whether a table meets what the arcs of a binding ask.
ghost use Rattle.std.specs.Prelude.{◌≡◌, ◌⊎◌, ◌↔◌, ℕ, [], unwrap_or, All, IsTrue, IfOk, Some};
ghost use Rattle.std.specs.List.Sorted.{IsSorted};
ghost use Rattle.std.specs.Option.{option_copied};
ghost use Rattle.rn_value.specs.Order.{value_cmp};
ghost use Rattle.rn_value.specs.declared.value.InstRef.TheVariants.{Old};
ghost use Rattle.rn_model.specs.Enabling.{Fits};
ghost use Rattle.rn_model.specs.Markings.{net_of, tokens};
ghost use Rattle.rn_arcs.specs.FitInscriptions.{InscriptionsAreFit};
ghost use Rattle.rn_arcs.specs.link.Meeting.{AreAbsent, AreLeft, IsWhole, Meets};

use crate::asked::Asked;
use crate::counting::count_among;
use crate::grouping::asked_of;
use crate::holding::{bag_at, count_in, has_all_in, is_list_of};
use crate::room::has_room;
use rn_bag::Bag;
use rn_items::NoMemory;
use rn_model::{Binding, Node, System};
use rn_table::Table;
use rn_value::{InstRef, Vals, Value};
use std::alloc::Global;

/// Whether the existing instance on which a node stands is there with the node's net.
fn is_there(table: &Table, node: &Node) -> bool
    ensures { IsTrue result
        ↔ ((n : ℕ) → node.now.inst ≡ Old n → net_of table.now.marking n ≡ Some node.now.net) }
{
    match &node.inst {
        InstRef::Old(number) => match table.net_of(*number) {
            Some(net) => net == node.net,
            None => false,
        },
        InstRef::New(_, _) => true,
    }
}

fn are_there(table: &Table, nodes: &[Node]) -> bool
    ensures { IsTrue result
        ↔ All (λ node. (n : ℕ) → node.inst ≡ Old n → net_of table.now.marking n ≡ Some node.net)
        nodes.now }
{
    for node in nodes {
        if !is_there(table, node) {
            return false;
        }
    }
    true
}

/// Whether none of these is there.
fn are_absent(bag: Option<&Bag>, inhibited: &[Value]) -> bool
    ensures { IsTrue result ↔ AreAbsent (unwrap_or (option_copied bag.entry) []) inhibited.now }
{
    for value in inhibited {
        if count_in(bag, value) > 0 {
            return false;
        }
    }
    true
}

/// Whether each of these is there more often than it is taken.
fn are_left(bag: Option<&Bag>, taken: &[Value], tested: &[Value]) -> bool
    requires { IsSorted value_cmp taken.now }
    ensures { IsTrue result
        ↔ AreLeft (unwrap_or (option_copied bag.entry) []) taken.now tested.now }
{
    for value in tested {
        if count_in(bag, value) <= count_among(taken, value) {
            return false;
        }
    }
    true
}

/// Whether nothing is cleared, or one arc clears just what is there and nothing is taken.
fn is_whole(bag: Option<&Bag>, cleared: &[Vals], taken: &[Value]) -> bool
    ensures { IsTrue result
        ↔ IsWhole (unwrap_or (option_copied bag.entry) []) cleared.now taken.now }
{
    match cleared {
        [] => true,
        [values] => taken.is_empty() && is_list_of(bag, values.as_slice()),
        _ => false,
    }
}

/// Whether nothing is tested, or nothing is cleared.
fn is_apart(asked: &Asked) -> bool
    ensures { IsTrue result ↔ ((asked.now.tested ≡ []) ⊎ (asked.now.cleared ≡ [])) }
{
    asked.tested.is_empty() || asked.cleared.is_empty()
}

/// Whether a place of the table meets what is asked of it.
fn place_fits(table: &Table, asked: &Asked) -> bool
    requires { IsSorted value_cmp asked.now.taken }
    ensures { IsTrue result
        ↔ Meets (tokens table.now.marking asked.now.inst asked.now.place) asked.now }
{
    let bag = bag_at(table, &asked.inst, asked.place);
    let taken = asked.taken.as_slice();
    if !is_apart(asked) {
        return false;
    }
    if !is_whole(bag, asked.cleared.as_slice(), taken) {
        return false;
    }
    if !has_all_in(bag, &asked.taken) {
        return false;
    }
    if !are_absent(bag, asked.inhibited.as_slice()) {
        return false;
    }
    are_left(bag, taken, asked.tested.as_slice())
}

fn all_fit(table: &Table, places: &[Asked]) -> bool
    requires { All (λ g. IsSorted value_cmp g.taken) places.now }
    ensures { IsTrue result
        ↔ All (λ g. Meets (tokens table.now.marking g.inst g.place) g) places.now }
{
    for asked in places {
        if !place_fits(table, asked) {
            return false;
        }
    }
    true
}

/// Whether the table meets what the arcs of a binding ask together: its existing instances are
/// there with their nets; what is taken is there, with repeats; each tested token remains after all
/// that is taken and cleared; no inhibited token is there; and a cleared place has one clear arc,
/// whose list is that of all its tokens, with nothing else taken. An instance that the binding makes
/// holds nothing yet. Besides no place of an instance that takes part or is made gets more tokens
/// than its capacity, where what is taken and cleared goes before anything is put.
///
/// Its work is near linear in the number of arcs, and it copies no bag. Where a net has places with
/// a capacity, each of these is looked up for each node of that net, and none of its tokens.
pub fn fits(
    alloc: Global,
    system: &System,
    table: &Table,
    binding: &Binding,
) -> Result<bool, NoMemory>
    requires fit { InscriptionsAreFit system.now binding.now }
    ensures exact { IfOk result
        (λ yes. IsTrue yes ↔ Fits system.now table.now.marking binding.now) }
{
    if !are_there(table, binding.nodes.as_slice()) {
        return Ok(false);
    }
    let places = asked_of(alloc, system, binding, false)?;
    let asked = places.as_slice();
    if !all_fit(table, asked) {
        return Ok(false);
    }
    has_room(alloc, system, table, binding, asked)
}
