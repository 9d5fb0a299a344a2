//! With which of its tokens a choice begins. After many decisions most tokens before the one that
//! was taken last of the same place are taken already, so a choice that began with the first would
//! refuse each of them. It begins with that one and goes round, so none is left out
//! (`docs/SEARCH.md`, 'A binding grows by decisions').
ghost use Rattle.rn_branch.specs.GoingOn.{IsSameButFirst};

use crate::taking::{MANY, is_same_old, takes_token, taking_of};
use rn_choices::Next;
use rn_growing::{Decision, transition_in};
use rn_model::System;
use rn_search::{Point, Problem};
use rn_value::{InstRef, Value};

/// In how many of the newest decisions a token is looked for that is taken of the same place.
const NEAR: usize = 64;

// The token that was taken last of a place of an instance, by one of the newest decisions.
fn taken_last<'a>(
    system: &System,
    decisions: &'a [Decision],
    inst: &InstRef,
    place: u32,
) -> Option<&'a Value> {
    let older = decisions.len().saturating_sub(NEAR);
    for i in (older..decisions.len()).rev() {
        if let Some(taking) = taking_of(system, &decisions[i]) {
            if taking.place == place && is_same_old(taking.inst, inst) {
                return Some(taking.token);
            }
        }
    }
    None
}

// The index at which that token stands first, where an arc of a node takes one of the same place.
fn index_taken_last(
    problem: &Problem<'_>,
    decisions: &[Decision],
    node: usize,
    k: usize,
) -> Option<usize> {
    let head = problem.node_of(decisions, node);
    let Some(transition) = transition_in(problem.system(), head) else {
        return None;
    };
    let Some(arc) = transition.arcs.get(k) else {
        return None;
    };
    if !takes_token(arc.kind) {
        return None;
    }
    match taken_last(problem.system(), decisions, &head.inst, arc.place) {
        Some(token) => problem.only_token(decisions, node, k, token),
        None => None,
    }
}

// The alternative that means the token taken last, where it is one of a choice among the tokens of
// an arc.
fn taken_among(
    problem: &Problem<'_>,
    decisions: &[Decision],
    point: Point,
    of: usize,
) -> Option<usize> {
    let Point::Token(node, k, from) = point else {
        return None;
    };
    let Some(index) = index_taken_last(problem, decisions, node, k) else {
        return None;
    };
    if index < from || index - from >= of {
        return None;
    }
    Some(index - from)
}

/// How a search goes on, where a choice among tokens begins with the one that was taken last of the
/// same place, once there are many decisions: those before it are mostly taken already.
#[tactic(auto, using(crate::proofs::GoingOn::same_next))]
pub(crate) fn begun(problem: &Problem<'_>, decisions: &[Decision], next: Next<Point>) -> Next<Point>
    ensures { IsSameButFirst next result }
{
    if decisions.len() < MANY {
        return next;
    }
    let Next::Choose(point, of, _) = next else {
        return next;
    };
    match taken_among(problem, decisions, point, of) {
        Some(begin) => Next::Choose(point, of, begin),
        None => next,
    }
}
