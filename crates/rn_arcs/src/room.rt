//! Whether the places with a capacity have room for what a binding puts.
ghost use Rattle.std.specs.Prelude.{◌≡◌, ◌≤◌, ◌+◌, ◌-◌, ◌↔◌, ℕ, false, All, IsTrue, IfOk, length};
ghost use Rattle.std.specs.List.{flat_map, list_any};
ghost use Rattle.rn_value.specs.declared.value.InstRef.TheVariants.{Old};
ghost use Rattle.rn_arcs.specs.FitInscriptions.{InscriptionsAreFit};
ghost use Rattle.rn_arcs.specs.link.Groups.{AreAsked};
ghost use Rattle.rn_arcs.specs.link.Room.{net_is_limited, node_is_limited, remaining_in, filled_in};
ghost use Rattle.rn_arcs.specs.link.Room.{IsInOrder, staying, PlaceHasRoom, EachHasRoom};
ghost use Rattle.rn_arcs.specs.link.Room.{PlacesHaveRoom, MadeHaveRoom, NodeHasRoom, AllHaveRoom};
ghost use Rattle.rn_arcs.specs.link.Seats.{seat_inst};

use crate::asked::Asked;
use crate::demands::Fill;
use crate::filling::fills_of;
use crate::seat::Seat;
use rn_items::NoMemory;
use rn_model::{Binding, Creation, Node, Place, System, find_transition, places_of};
use rn_table::Table;
use rn_value::{InstRef, Path, Vals};
use std::alloc::Global;

/// Whether a net has a place with a capacity.
fn net_is_limited(system: &System, net: u32) -> bool
    ensures { result ≡ net_is_limited system.now net }
{
    for place in places_of(system, net) {
        if place.max.is_some() {
            return true;
        }
    }
    false
}

/// Whether the net of a node has a place with a capacity, or that of an instance that it makes.
fn node_is_limited(system: &System, node: &Node) -> bool
    ensures { result ≡ node_is_limited system.now node.now }
{
    if net_is_limited(system, node.net) {
        return true;
    }
    let Some(transition) = find_transition(system, node) else {
        return false;
    };
    for creation in transition.creations.as_slice() {
        if net_is_limited(system, creation.net) {
            return true;
        }
    }
    false
}

fn are_limited(system: &System, nodes: &[Node]) -> bool
    ensures { result ≡ list_any (node_is_limited system.now) nodes.now }
{
    for node in nodes {
        if node_is_limited(system, node) {
            return true;
        }
    }
    false
}

/// How many tokens stay where these lists are cleared.
fn less_cleared(held: usize, lists: &[Vals]) -> usize
    ensures { result ≡ held - length (flat_map (λ vs. vs) lists.now) }
{
    let mut left = held;
    for list in lists {
        left = left.saturating_sub(list.len());
    }
    left
}

/// Whether so many tokens and so many others are at most so many.
fn is_within(staying: u128, filled: u128, most: u128) -> bool
    ensures { IsTrue result ↔ (staying + filled ≤ most) }
{
    staying <= most && filled <= most - staying
}

/// A firing at a table: what it asks and what it puts, place by place in order.
#[derive(Clone, Copy)]
pub(crate) struct Firing<'a> {
    system: &'a System,
    table: &'a Table,
    asked: &'a [Asked],
    fills: &'a [Fill],
}

impl Firing<'_> {
    /// How many tokens remain at a place of so many that are there.
    fn remaining(&self, seat: &Seat<'_>, place: usize, held: usize) -> usize
        requires { IsInOrder self.now }
        ensures { result ≡ remaining_in self.now.asked.now (seat_inst seat.now, place) held }
    {
        match seat.asked(place, self.asked) {
            None => held,
            Some(asked) => {
                less_cleared(
                    held.saturating_sub(asked.taken.len()),
                    asked.cleared.as_slice(),
                )
            }
        }
    }

    /// How many tokens of a place stay.
    fn staying(&self, seat: &Seat<'_>, place: usize, kept: &Place) -> usize
        requires { IsInOrder self.now }
        ensures { result ≡ staying self.now (seat_inst seat.now) place kept.now }
    {
        match seat {
            Seat::There(number) => { self.remaining(seat, place, self.table.count(*number, place)) }
            Seat::Made(_, _) => kept.initial.len(),
        }
    }

    /// How many tokens are put at a place.
    fn filled(&self, seat: &Seat<'_>, place: usize) -> u128
        requires { IsInOrder self.now }
        ensures { result ≡ filled_in self.now.fills.now (seat_inst seat.now, place) }
    {
        match seat.filled(place, self.fills) {
            None => 0,
            Some(fill) => fill.count,
        }
    }

    fn place_has_room(&self, seat: &Seat<'_>, place: usize, kept: &Place) -> bool
        requires { IsInOrder self.now }
        ensures { IsTrue result ↔ PlaceHasRoom self.now (seat_inst seat.now) place kept.now }
    {
        match kept.max {
            None => true,
            Some(most) => is_within(
                self.staying(seat, place, kept) as u128,
                self.filled(seat, place),
                most as u128,
            ),
        }
    }

    fn places_have_room(&self, net: u32, seat: &Seat<'_>) -> bool
        requires { IsInOrder self.now }
        ensures { IsTrue result ↔ PlacesHaveRoom self.now net (seat_inst seat.now) }
    {
        self.each_has_room(places_of(self.system, net), seat)
    }

    fn each_has_room(&self, places: &[Place], seat: &Seat<'_>) -> bool
        requires { IsInOrder self.now }
        ensures { IsTrue result ↔ EachHasRoom self.now places.now (seat_inst seat.now) }
    {
        for place in 0..places.len() {
            if !self.place_has_room(seat, place, &places[place]) {
                return false;
            }
        }
        true
    }

    fn made_have_room(&self, path: &Path, creations: &[Creation]) -> bool
        requires { IsInOrder self.now }
        ensures { IsTrue result ↔ MadeHaveRoom self.now path.now creations.now }
    {
        for index in 0..creations.len() {
            if !self.places_have_room(creations[index].net, &Seat::Made(path, index)) {
                return false;
            }
        }
        true
    }

    fn own_has_room(&self, node: &Node) -> bool
        requires { IsInOrder self.now }
        ensures { IsTrue result ↔ ((n : ℕ) → node.now.inst ≡ Old n →
            PlacesHaveRoom self.now node.now.net (Old n)) }
    {
        match &node.inst {
            InstRef::Old(number) => self.places_have_room(node.net, &Seat::There(*number)),
            InstRef::New(_, _) => true,
        }
    }

    fn node_has_room(&self, node: &Node) -> bool
        requires { IsInOrder self.now }
        ensures { IsTrue result ↔ NodeHasRoom self.now node.now }
    {
        if !self.own_has_room(node) {
            return false;
        }
        match find_transition(self.system, node) {
            None => true,
            Some(transition) => { self.made_have_room(&node.path, transition.creations.as_slice()) }
        }
    }

    fn nodes_have_room(&self, nodes: &[Node]) -> bool
        requires { IsInOrder self.now }
        ensures { IsTrue result ↔ All (NodeHasRoom self.now) nodes.now }
    {
        for node in nodes {
            if !self.node_has_room(node) {
                return false;
            }
        }
        true
    }
}

/// Whether no place with a capacity gets too many tokens: what is taken and cleared goes first, and
/// then comes what is put. Where no net has such a place, nothing is counted.
pub(crate) fn has_room(
    alloc: Global,
    system: &System,
    table: &Table,
    binding: &Binding,
    asked: &[Asked],
) -> Result<bool, NoMemory>
    requires asked { AreAsked false system.now binding.now asked.now }
    requires fit { InscriptionsAreFit system.now binding.now }
    ensures { IfOk result
        (λ yes. IsTrue yes ↔ AllHaveRoom system.now table.now.marking binding.now) }
{
    let nodes = binding.nodes.as_slice();
    if !are_limited(system, nodes) {
        return Ok(true);
    }
    let filled = fills_of(alloc, system, binding)?;
    let fills = filled.as_slice();
    let firing = Firing {
        system,
        table,
        asked,
        fills,
    };
    Ok(firing.nodes_have_room(nodes))
}
