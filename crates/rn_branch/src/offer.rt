//! The token that an alternative of an arc means, looked at where it stands. It is copied only into
//! a decision that is made, so one that is taken too often, or by which a guard isn't true, is
//! refused without a copy (`docs/SEARCH.md`, 'A binding grows by decisions').
ghost use Rattle.std.specs.Prelude.{IfSome};
ghost use Rattle.rn_branch.specs.Offers.{IsOffer};

use rn_bag::Bag;
use rn_growing::{Decision, Head, transition_in};
use rn_model::{NetArc, Transition};
use rn_search::Problem;
use rn_value::{InstRef, Value};

/// A token of the place of a node's arc.
#[derive(Drop)]
pub(crate) struct Offer<'a> {
    pub(crate) head: &'a Head,
    pub(crate) transition: &'a Transition,
    pub(crate) arc: &'a NetArc,

    /// All tokens of the place.
    pub(crate) held: &'a Bag,
    pub(crate) token: &'a Value,
}

/// The token of an index in the place of a node's arc. Nothing is copied.
pub(crate) fn offer_at<'a>(
    problem: &'a Problem<'_>,
    decisions: &'a [Decision],
    node: usize,
    k: usize,
    index: usize,
) -> Option<Offer<'a>>
    ensures { IfSome result (IsOffer problem.now decisions.now node k index) }
{
    let Some(Decision::Entered(head, _)) = decisions.get(node) else {
        return None;
    };
    let Some(transition) = transition_in(problem.system(), head) else {
        return None;
    };
    let Some(arc) = transition.arcs.get(k) else {
        return None;
    };
    let InstRef::Old(number) = &head.inst else {
        return None;
    };
    let Some(held) = problem.table().bag(*number, arc.place) else {
        return None;
    };
    let Some(token) = held.get(index) else {
        return None;
    };
    Some(Offer {
        head,
        transition,
        arc,
        held,
        token,
    })
}
