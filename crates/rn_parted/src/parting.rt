//! Which place of an instance parts the bindings that start in it.
ghost use Rattle.std.specs.Prelude.{◌≡◌, ◌&&◌, ◌||◌, true, not, nat_eq, length, IfSome};
ghost use Rattle.std.specs.List.{list_all};
ghost use Rattle.rn_model.specs.Systems.{capacity, is_output};
ghost use Rattle.rn_parted.specs.Parting.{ask_at_most_one, askers_at, asks_one, parts};

use rn_model::{ArcKind, System, Transition, places_of, transitions_of};
use rn_table::Table;

/// For a place with so many tokens no shares are kept.
const FEW: usize = 15;

// Whether an arc puts tokens and does nothing else.
fn is_output(kind: ArcKind) -> bool
    ensures { result ≡ is_output kind }
{
    matches!(kind, ArcKind::Output | ArcKind::FlexOutput)
}

// Whether an arc asks its place for one token and for nothing else.
fn asks_one(kind: ArcKind) -> bool
    ensures { result ≡ asks_one kind }
{
    matches!(kind, ArcKind::Input | ArcKind::Test | ArcKind::Reserve)
}

// How many arcs of a transition do more than put at a place.
fn ask_count(transition: &Transition, place: u32) -> usize
    ensures { result ≡ length (askers_at transition.now place) }
{
    let arcs = transition.arcs.as_slice();
    arcs.iter()
        .filter(|arc| arc.place == place && !is_output(arc.kind))
        .count()
}

// Whether each of these asks for one token and for nothing else.
fn all_ask_one(transition: &Transition, place: u32) -> bool
    ensures { result ≡ list_all (λ x. not (nat_eq x.place place && not (is_output x.kind))
        || asks_one x.kind) transition.now.arcs }
{
    let arcs = transition.arcs.as_slice();
    arcs.iter().all(|arc| !(arc.place == place && !is_output(arc.kind)) || asks_one(arc.kind))
}

// Whether the arcs of a transition ask a place for one token at most, in the way that parts.
fn asks_at_most_one(transition: &Transition, place: u32) -> bool
    ensures { result ≡ true →
        ask_at_most_one transition.now (askers_at transition.now place) ≡ true }
{
    let count = ask_count(transition, place);
    if count == 0 {
        return true;
    }
    if count != 1 {
        return false;
    }
    if transition.uplink.is_some() {
        return false;
    }
    all_ask_one(transition, place)
}

// The capacity of a place of a net, where it has one.
fn capacity(system: &System, net: u32, place: u32) -> Option<u32>
    ensures { result ≡ capacity system.now net place }
{
    match places_of(system, net).get(place as usize) {
        Some(place) => place.max,
        None => None,
    }
}

// Whether a place of a net parts the bindings that start in its instances.
fn parts(system: &System, net: u32, place: u32) -> bool
    ensures { result ≡ true → parts system.now net place ≡ true }
{
    if capacity(system, net, place).is_some() {
        return false;
    }
    for transition in transitions_of(system, net) {
        if !asks_at_most_one(transition, place) {
            return false;
        }
    }
    true
}

// The better one of a place and the best so far.
fn better(
    system: &System,
    table: &Table,
    instance: u32,
    net: u32,
    place: u32,
    best: Option<u32>,
) -> Option<u32>
    requires { IfSome best (λ other. parts system.now net other ≡ true) }
    ensures { IfSome result (λ other. parts system.now net other ≡ true) }
{
    let most = match best {
        Some(other) => table.count(instance, other as usize),
        None => FEW,
    };
    if table.count(instance, place as usize) <= most || !parts(system, net, place) {
        return best;
    }
    Some(place)
}

/// Of the places of an instance of a net that part, and hold more than a few tokens, the one that
/// holds most.
pub(crate) fn place_of(system: &System, table: &Table, instance: u32, net: u32) -> Option<u32>
    ensures { IfSome result (λ place. parts system.now net place ≡ true) }
{
    let mut best = None;
    for place in 0..u32::MAX {
        if table.bag(instance, place).is_none() {
            return best;
        }
        best = better(system, table, instance, net, place, best);
    }
    best
}
