//! Alternatives that are passed by, many at once: tokens that equal an earlier one, which are no
//! decisions, and tokens that lack a part that is known, which lead to no binding. So a choice
//! among many such tokens doesn't try each of them (`docs/SEARCH.md`, 'A binding grows by
//! decisions').
ghost use Rattle.std.specs.Prelude.{ℕ, ◌<◌, ◌≤◌, ◌+◌};
ghost use Rattle.rn_looking.specs.Branches.{IsBranchOf};
ghost use Rattle.rn_branch.specs.Offers.{NoneLeadBy};

use crate::finder::{finder_at, lacking};
use rn_growing::Growing;
use rn_search::{Point, Problem};
use std::alloc::Global;

/// How many alternatives from one on are seen to be repeats of a token.
pub(crate) fn repeats_at(
    problem: &Problem<'_>,
    growing: &Growing<'_>,
    site: Point,
    alternative: usize,
) -> usize
    requires { IsBranchOf problem.now growing.now }
    ensures { (a : ℕ) → alternative ≤ a → a < alternative + result →
        NoneLeadBy problem.now growing.now.decisions site a }
{
    match site {
        Point::Token(node, k, from) => {
            problem.repeats(growing.decisions(), node, k, from, alternative)
        }
        _ => 0,
    }
}

/// How many alternatives from one on are seen to be tokens that lack a part that is known.
pub(crate) fn lacking_at(
    alloc: Global,
    problem: &Problem<'_>,
    growing: &Growing<'_>,
    site: Point,
    alternative: usize,
) -> usize
    requires { IsBranchOf problem.now growing.now }
    ensures { (a : ℕ) → alternative ≤ a → a < alternative + result →
        NoneLeadBy problem.now growing.now.decisions site a }
{
    let Point::Token(node, k, 0) = site else {
        return 0;
    };
    match finder_at(problem, growing.decisions(), node, k) {
        Some(finder) => lacking(alloc, growing, k, &finder, alternative),
        None => 0,
    }
}
