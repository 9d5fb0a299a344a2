//! A search up to its first choice. As long as each decision is forced there is one binding at
//! most, so what is found at the end is the first of its start, without a comparison. Where there
//! is a choice, nothing is said (`docs/SEARCH.md`, 'The first of all').
ghost use Rattle.std.specs.Prelude.{◌≡◌, IfOk, []};
ghost use Rattle.rn_looking.specs.Branches.{IsBranchOf};
ghost use Rattle.rn_finder.specs.Straight.{EndsSo};

use rn_binding::Candidate;
use rn_branch::Branch;
use rn_choices::{Grows, Next};
use rn_search::Problem;
use rn_value::NoMemory;
use std::alloc::Global;

/// What a search comes to that makes no choice.
#[derive(Drop)]
pub(crate) enum Straight {
    /// The only binding that is looked for, or that there is none.
    Ended(Option<Candidate>),
    /// It would have to choose.
    Choice,
}

/// Searches up to the first choice, from no decisions on.
pub(crate) fn go_straight<'a>(
    alloc: Global,
    problem: &Problem<'a>,
    branch: &mut Branch<'a>,
) -> Result<Straight, NoMemory>
    requires branch { IsBranchOf problem.now branch.old }
    requires none { branch.old.decisions ≡ [] }
    ensures branch { IfOk result (λ _. IsBranchOf problem.now branch.new) }
    ensures ends { IfOk result (EndsSo problem.now) }
{
    'steps: loop {
        match branch.next(problem)? {
            Next::Done => return Ok(Straight::Ended(branch.solution(alloc, problem)?)),
            Next::Stuck => return Ok(Straight::Ended(None)),
            Next::Choose(_, _, _) => return Ok(Straight::Choice),
            Next::Forced(site) => {
                if !branch.push(problem, site, 0)? {
                    return Ok(Straight::Ended(None));
                }
            }
        }
    }
}
