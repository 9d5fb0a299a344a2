//! Where a firing may start. A start is passed by without a search where its transition has an
//! uplink, the place of an arc that finds a token is empty, or a place has no room. No enabled
//! binding starts so, and it costs only a look at some places (`docs/SEARCH.md`, 'Where it
//! starts').
ghost use Rattle.std.specs.Prelude.{◌≡◌, ◌<◌, ◌↔◌, ℕ, IfOk, IsTrue, length};
ghost use Rattle.std.specs.List.{list_any};
ghost use Rattle.rn_model.specs.Good.{Good};
ghost use Rattle.rn_model.specs.Systems.{net_at};
ghost use Rattle.rn_finder.specs.Starting.{MayStartBy, is_starved, start_of};

use crate::capacities::lacks_room;
use rn_growing::Head;
use rn_items::Items;
use rn_model::{NetArc, System, finds_token, transitions_of};
use rn_shared::Shared;
use rn_table::Inst;
use rn_value::{InstRef, NoMemory};
use std::alloc::Global;

/// How many transitions a net has.
pub(crate) fn transition_count(system: &System, net: u32) -> u32
    requires { Good system.now }
    ensures { result ≡ length (net_at system.now net).transitions }
{
    transitions_of(system, net).len() as u32
}

// Whether an arc finds a token and its place at an instance is empty.
fn is_starved(inst: &Inst, arc: &NetArc) -> bool
    ensures { result ≡ is_starved inst.now arc.now }
{
    if !finds_token(arc.kind) {
        return false;
    }
    match inst.bag(arc.place) {
        Some(bag) => bag.is_empty(),
        None => true,
    }
}

// Whether that is so of one of some arcs.
fn lacks_token(inst: &Inst, arcs: &[NetArc]) -> bool
    ensures { result ≡ list_any (is_starved inst.now) arcs.now }
{
    for arc in arcs {
        if is_starved(inst, arc) {
            return true;
        }
    }
    false
}

/// Whether a firing may start by a transition of an instance: the transition has no uplink, each of
/// its arcs that finds a token has one in its place, and no place is too full for what its arcs
/// alone put there. It takes no memory.
pub(crate) fn may_start(system: &System, inst: &Inst, transition: u32) -> bool
    requires { transition < length (net_at system.now inst.now.net).transitions }
    ensures { IsTrue result ↔ MayStartBy system.now inst.now transition }
{
    let transition = &transitions_of(system, inst.net())[transition as usize];
    transition.uplink.is_none()
        && !lacks_token(inst, transition.arcs.as_slice())
        && !lacks_room(system, inst, transition)
}

/// Whether a firing may start by no transition of an instance.
pub(crate) fn starts_none(system: &System, inst: &Inst) -> bool
    requires { Good system.now }
    ensures { IsTrue result → (t : ℕ) → t < length (net_at system.now inst.now.net).transitions →
        ¬ MayStartBy system.now inst.now t }
{
    for t in 0..transition_count(system, inst.net()) {
        if may_start(system, inst, t) {
            return false;
        }
    }
    true
}

/// What a search from a start by a transition of an instance costs before its first step: the more,
/// the more its transition has.
pub(crate) fn cost_of(system: &System, inst: &Inst, transition: u32) -> u64
    requires { transition < length (net_at system.now inst.now.net).transitions }
{
    let transition = &transitions_of(system, inst.net())[transition as usize];
    let parts = transition
        .arcs
        .len()
        .saturating_add(transition.creations.len())
        .saturating_add(transition.downlinks.len());
    (parts as u64 / 8).saturating_add(4)
}

/// The start by a transition of an instance.
pub(crate) fn start_at(
    alloc: Global,
    number: u32,
    net: u32,
    transition: u32,
) -> Result<Head, NoMemory>
    ensures { IfOk result (λ start. start ≡ start_of number net transition) }
{
    Ok(Head {
        path: Shared::new(alloc, Items::new(alloc))?,
        inst: InstRef::Old(number),
        net,
        transition,
    })
}
