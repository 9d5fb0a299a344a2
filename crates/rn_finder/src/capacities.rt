//! Where a firing has no room for what it puts. Where a start calls nothing, and its arcs at a
//! place move one token or none each, their numbers decide that before any token is chosen. Else it
//! would be seen only at the end of a branch, for each combination of tokens (`docs/SEARCH.md`,
//! 'Where it starts').
ghost use Rattle.std.specs.Prelude.{◌≡◌, [], length, slice_get, unwrap_or};
ghost use Rattle.rn_model.specs.RoomLaws.{is_plain_at, moves_list, putters_at, puts_one};
ghost use Rattle.rn_model.specs.RoomLaws.{takers_at, takes_one};
ghost use Rattle.rn_model.specs.Systems.{capacity};
ghost use Rattle.rn_finder.specs.Starting.{lacks_room, overfills};

use rn_model::{ArcKind, NetArc, System, Transition, places_of};
use rn_table::Inst;

// Whether an arc takes one token.
fn takes_one(kind: ArcKind) -> bool
    ensures { result ≡ takes_one kind }
{
    matches!(kind, ArcKind::Input | ArcKind::Reserve)
}

// Whether an arc puts one token.
fn puts_one(kind: ArcKind) -> bool
    ensures { result ≡ puts_one kind }
{
    matches!(kind, ArcKind::Output | ArcKind::Reserve)
}

// Whether an arc's inscription is the list of what it moves.
fn moves_list(kind: ArcKind) -> bool
    ensures { result ≡ moves_list kind }
{
    matches!(
        kind,
        ArcKind::FlexInput | ArcKind::FlexOutput | ArcKind::Clear
    )
}

// How many arcs of a transition take one token from a place.
fn takers_at(transition: &Transition, place: u32) -> usize
    ensures { result ≡ takers_at transition.now place }
{
    let arcs = transition.arcs.as_slice();
    arcs.iter()
        .filter(|arc| arc.place == place && takes_one(arc.kind))
        .count()
}

// How many put one there.
fn putters_at(transition: &Transition, place: u32) -> usize
    ensures { result ≡ putters_at transition.now place }
{
    let arcs = transition.arcs.as_slice();
    arcs.iter()
        .filter(|arc| arc.place == place && puts_one(arc.kind))
        .count()
}

// Whether none of its arcs at a place is flexible or clears it.
fn is_plain_at(transition: &Transition, place: u32) -> bool
    ensures { result ≡ is_plain_at transition.now place }
{
    let arcs = transition.arcs.as_slice();
    arcs.iter()
        .all(|arc| !(arc.place == place && moves_list(arc.kind)))
}

// The capacity of a place of a net, where it has one.
fn capacity(system: &System, net: u32, place: u32) -> Option<u32>
    ensures { result ≡ capacity system.now net place }
{
    match places_of(system, net).get(place as usize) {
        Some(place) => place.max,
        None => None,
    }
}

// How many tokens a place of an instance holds.
fn held(inst: &Inst, place: u32) -> usize
    ensures { result ≡ length (unwrap_or (slice_get inst.now.places place) []) }
{
    match inst.bag(place) {
        Some(bag) => bag.len(),
        None => 0,
    }
}

// Whether an arc puts a token into a place of an instance that has no room for all that the arcs
// put there.
fn overfills(system: &System, inst: &Inst, transition: &Transition, arc: &NetArc) -> bool
    ensures { result ≡ overfills system.now inst.now transition.now arc.now }
{
    if !puts_one(arc.kind) {
        return false;
    }
    match capacity(system, inst.net(), arc.place) {
        Some(most) => {
            is_plain_at(transition, arc.place)
                && (most as u128 + takers_at(transition, arc.place) as u128)
                    < (held(inst, arc.place) as u128 + putters_at(transition, arc.place) as u128)
        }
        None => false,
    }
}

/// Whether a transition calls nothing, and its arcs alone put more into a place of an instance than
/// there is room for.
pub(crate) fn lacks_room(system: &System, inst: &Inst, transition: &Transition) -> bool
    ensures { result ≡ lacks_room system.now inst.now transition.now }
{
    if transition.downlinks.len() != 0 {
        return false;
    }
    for arc in transition.arcs.as_slice() {
        if overfills(system, inst, transition, arc) {
            return true;
        }
    }
    false
}
