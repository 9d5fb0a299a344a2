//! Alternatives that are given up before their decision is made: tokens that are taken as often as
//! they are there, or by which a guard isn't true. To decide first and see it then would bring in
//! all equations of the token for nothing. Guards are tested from the second token of a choice on
//! (`docs/SEARCH.md`, 'A binding grows by decisions').
ghost use Rattle.std.specs.Prelude.{IfOk, IsTrue};
ghost use Rattle.rn_search.specs.Allowing.{Allows};
ghost use Rattle.rn_search.specs.declared.point.Point.TheVariants as P;
ghost use Rattle.rn_looking.specs.Branches.{IsBranchOf};
ghost use Rattle.rn_branch.specs.Offers.{NoneLeadBy};
ghost use Rattle.rn_branch.specs.Takings.{AreTakings};
ghost use Rattle.rn_branch.specs.Testing.{AreKept};

use crate::offer::offer_at;
use crate::taken_up::is_taken_up;
use crate::takings::TakingCounts;
use crate::testing::{Tests, fails_kept, keep_tests};
use crate::tried::{Tried, TriedToken};
use rn_growing::Growing;
use rn_model::{Expr, finds_token};
use rn_search::{Point, Problem};
use rn_value::NoMemory;
use std::alloc::Global;

// Whether the token of an arc is one by which nothing goes on. Guards are tested from the second
// token of a choice on.
fn is_vain_token(
    alloc: Global,
    problem: &Problem<'_>,
    growing: &Growing<'_>,
    kept: &mut Option<Tests>,
    takings: &mut TakingCounts,
    tried: TriedToken,
) -> Result<bool, NoMemory>
    requires branch { IsBranchOf problem.now growing.now }
    requires allows { Allows problem.now growing.now.decisions
        (P.Token tried.node tried.k tried.from) tried.a }
    requires kept { AreKept growing.now kept.old }
    requires takings { AreTakings growing.now.system growing.now.decisions takings.old }
    ensures vain { IfOk result (λ yes. IsTrue yes
        → NoneLeadBy problem.now growing.now.decisions (P.Token tried.node tried.k tried.from)
        tried.a) }
    ensures kept { AreKept growing.now kept.new }
    ensures takings { AreTakings growing.now.system growing.now.decisions takings.new }
{
    // For their clauses: the tokens of the table fit their places, and the system is good.
    let _ = problem.table();
    let _ = problem.system();
    let Some(index) = tried.from.checked_add(tried.a) else {
        return Ok(false);
    };
    let Some(offer) = offer_at(problem, growing.decisions(), tried.node, tried.k, index) else {
        return Ok(false);
    };
    if is_taken_up(alloc, problem, growing, takings, &offer)? {
        return Ok(true);
    }
    if !finds_token(offer.arc.kind) {
        return Ok(false);
    }
    let Expr::Var(var) = &offer.arc.inscription else {
        return Ok(false);
    };
    if tried.again {
        keep_tests(alloc, growing, kept, tried.node, &offer, *var)?;
    }
    fails_kept(alloc, growing, &*kept, tried.node, &offer, *var)
}

/// Whether an alternative is known to be one by which nothing goes on, before its decision is made.
pub(crate) fn is_vain(
    alloc: Global,
    problem: &Problem<'_>,
    growing: &Growing<'_>,
    kept: &mut Option<Tests>,
    takings: &mut TakingCounts,
    tried: Tried,
) -> Result<bool, NoMemory>
    requires branch { IsBranchOf problem.now growing.now }
    requires allows { Allows problem.now growing.now.decisions tried.point tried.a }
    requires kept { AreKept growing.now kept.old }
    requires takings { AreTakings growing.now.system growing.now.decisions takings.old }
    ensures vain { IfOk result (λ yes. IsTrue yes
        → NoneLeadBy problem.now growing.now.decisions tried.point tried.a) }
    ensures kept { AreKept growing.now kept.new }
    ensures takings { AreTakings growing.now.system growing.now.decisions takings.new }
{
    match tried.point {
        Point::Token(node, k, from) => {
            let token = TriedToken {
                node,
                k,
                from,
                a: tried.a,
                again: tried.again,
            };
            is_vain_token(alloc, problem, growing, kept, takings, token)
        }
        _ => Ok(false),
    }
}
