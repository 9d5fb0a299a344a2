//! Tokens that decisions take as often as they are there. The marking has to hold all that a
//! binding takes, so a further arc that takes such a token leads to none. The token is refused
//! before its decision is made, or all below it would be searched first (`docs/SEARCH.md`, 'A
//! binding grows by decisions').
ghost use Rattle.std.specs.Prelude.{◌≡◌, ◌≤◌, IfOk, IsTrue};
ghost use Rattle.rn_model.specs.Lists.{count_of};
ghost use Rattle.rn_search.specs.Taking.{taken_so_far};
ghost use Rattle.rn_branch.specs.Offers.{IsTakenUp};
ghost use Rattle.rn_branch.specs.Takings.{AreTakings};

use crate::offer::Offer;
use crate::taking::{MANY, Taking, takes_it, takes_token};
use crate::takings::TakingCounts;
use rn_growing::{Decision, Growing};
use rn_model::System;
use rn_search::Problem;
use rn_value::NoMemory;
use std::alloc::Global;

// How often decisions take a token of a place of an instance.
fn times_taken(system: &System, decisions: &[Decision], taking: &Taking<'_>) -> usize
    ensures { result ≤ count_of taking.now.token.now
        (taken_so_far system.now taking.now.inst.now taking.now.place decisions.now) }
{
    let mut times = 0;
    for i in 0..decisions.len() {
        if takes_it(system, &decisions[i], taking) {
            times += 1;
        }
    }
    times
}

// The same, of few decisions one after another, and of many by the key.
fn times_by_all(
    alloc: Global,
    system: &System,
    decisions: &[Decision],
    takings: &mut TakingCounts,
    taking: &Taking<'_>,
) -> Result<usize, NoMemory>
    requires { AreTakings system.now decisions.now takings.old }
    ensures times { IfOk result (λ times. times ≤ count_of taking.now.token.now
        (taken_so_far system.now taking.now.inst.now taking.now.place decisions.now)) }
    ensures takings { AreTakings system.now decisions.now takings.new }
{
    if decisions.len() < MANY {
        return Ok(times_taken(system, decisions, taking));
    }
    takings.catch_up(alloc, system, decisions)?;
    Ok(takings.times(system, decisions, taking))
}

/// Whether an arc takes a token that decisions take as often as its place holds it.
pub(crate) fn is_taken_up(
    alloc: Global,
    problem: &Problem<'_>,
    growing: &Growing<'_>,
    takings: &mut TakingCounts,
    offer: &Offer<'_>,
) -> Result<bool, NoMemory>
    requires system { growing.now.system ≡ problem.now.system }
    requires takings { AreTakings growing.now.system growing.now.decisions takings.old }
    ensures up { IfOk result (λ yes. IsTrue yes
        → IsTakenUp problem.now growing.now.decisions offer.now) }
    ensures takings { AreTakings growing.now.system growing.now.decisions takings.new }
{
    if !takes_token(offer.arc.kind) {
        return Ok(false);
    }
    let taking = Taking {
        inst: &offer.head.inst,
        place: offer.arc.place,
        token: offer.token,
    };
    let system = problem.system();
    let decisions = growing.decisions();
    let times = times_by_all(alloc, system, decisions, takings, &taking)?;
    Ok(times > 0 && offer.held.count(offer.token) <= times as u64)
}
