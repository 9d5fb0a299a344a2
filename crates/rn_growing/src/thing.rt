//! What decisions are on, and looking one up. No two decisions are on one thing, so a search asks
//! of each thing whether it was decided. It is found by its key and then compared; to go through
//! all decisions would make each such question dearer with each decision.
ghost use Rattle.std.specs.Prelude.{◌≡◌, [], ◌∷◌, ◌++◌, map, nat_eq};
ghost use Rattle.std.specs.Cmp.Lexicographic.{pointwise};
ghost use Rattle.std.specs.List.{list_any};
ghost use Rattle.rn_growing.specs.Decided.{is_on};
ghost use Rattle.rn_growing.specs.link.DecisionKeys.{decision_key, thing_key};

use crate::decision::{Decision, Site};
use crate::keys::{hole_key, path_key, stir};
use crate::slot::are_same_site;
use rn_chains::Chains;

/// What a decision is on: the entry of the node on a path, or of the node that a downlink of it
/// calls, an arc of it, or an operator application of it.
#[derive(Clone, Copy)]
pub(crate) enum Thing<'a> {
    Entry(&'a [u32]),
    Called(&'a [u32], u32),
    Found(&'a [u32], usize),
    Computed(&'a [u32], Site, &'a [usize]),
}

// Whether a path is that of the child at a downlink of the node on another.
#[tactic(auto, using(crate::proofs::ChildPaths::one_more_each))]
fn is_child(child: &[u32], path: &[u32], i: u32) -> bool
    ensures { result ≡ pointwise nat_eq child.now (path.now ++ i ∷ []) }
{
    match child.split_last() {
        Some((last, front)) => *last == i && front == path,
        None => false,
    }
}

fn is_on(thing: &Thing<'_>, decision: &Decision) -> bool
    ensures { result ≡ is_on thing.now decision.now }
{
    match (thing, decision) {
        (Thing::Entry(path), Decision::Entered(head, _)) => head.path.as_slice() == *path,
        (Thing::Called(path, i), Decision::Entered(head, _)) => {
            is_child(head.path.as_slice(), path, *i)
        }
        (Thing::Found(path, k), Decision::Found(head, j, _)) => {
            head.path.as_slice() == *path && *j == *k
        }
        (Thing::Computed(path, site, way), Decision::Computed(head, at, along, _)) => {
            head.path.as_slice() == *path && are_same_site(*at, *site) && along.as_slice() == *way
        }
        _ => false,
    }
}

fn key_of_thing(thing: &Thing<'_>) -> usize
    ensures { result ≡ thing_key thing.now }
{
    match thing {
        Thing::Entry(path) => stir(path_key(path), 8),
        Thing::Called(path, i) => stir(stir(path_key(path), *i as usize), 8),
        Thing::Found(path, k) => stir(stir(path_key(path), 9), *k),
        Thing::Computed(path, site, way) => hole_key(path, *site, way),
    }
}

/// The key of what a decision is on.
pub(crate) fn key_of(decision: &Decision) -> usize
    ensures { result ≡ decision_key decision.now }
{
    match decision {
        Decision::Entered(head, _) => stir(path_key(head.path.as_slice()), 8),
        Decision::Found(head, k, _) => stir(stir(path_key(head.path.as_slice()), 9), *k),
        Decision::Computed(head, site, way, _) => {
            hole_key(head.path.as_slice(), *site, way.as_slice())
        }
    }
}

/// Whether one of some decisions is on a thing, found by their keys.
pub(crate) fn is_decided(decisions: &[Decision], keys: &Chains, thing: &Thing<'_>) -> bool
    requires { keys.now ≡ map decision_key decisions.now }
    ensures { result ≡ list_any (is_on thing.now) decisions.now }
{
    let mut left = keys.last(key_of_thing(thing));
    while left > 0 {
        if is_on(thing, &decisions[left - 1]) {
            return true;
        }
        left = keys.before(left - 1);
    }
    false
}
