//! A search for the bindings that are less than one. Bindings are compared by the values of the
//! start first, so a branch is given up once those are forced to greater ones, whatever the nodes
//! below may be. All else is a `Branch`, but for the comparison at its end (`docs/SEARCH.md`, 'The
//! first of all').
ghost use Rattle.std.specs.Prelude.{◌<◌, IfOk, IsTrue, length};
ghost use Rattle.rn_choices.specs.Leading.{NoneLeads};
ghost use Rattle.rn_finder.specs.Lesser.{IsLesserBranch, IsPast, LeadsBelow};

use rn_binding::Candidate;
use rn_branch::Branch;
use rn_choices::{Grows, Next};
use rn_growing::{Decision, Growing, transition_in};
use rn_model::compare_bindings;
use rn_search::{Point, Problem};
use rn_value::{NoMemory, Value};
use std::alloc::Global;
use std::cmp::Ordering;

/// What is looked for: what another search looks for, where it is less than this binding.
#[derive(Drop)]
pub(crate) struct Lesser<'a> {
    pub sought: Problem<'a>,
    pub than: Candidate,
}

/// A branch of that search. It is given up where the first values of its start are decided, and are
/// greater than those of the binding.
#[derive(Drop)]
pub(crate) struct LesserBranch<'a> {
    pub alloc: Global,
    pub branch: Branch<'a>,
}

// Whether the first variables of the start are forced to values of which the first that differs
// from the one that is given is greater.
fn is_past(
    alloc: Global,
    growing: &Growing<'_>,
    vars: &[u32],
    values: &[Value],
) -> Result<bool, NoMemory>
    ensures { IfOk result (λ yes. IsTrue yes → IsPast growing.now vars.now values.now) }
{
    for i in 0..vars.len() {
        let Some(other) = values.get(i) else {
            return Ok(false);
        };
        let Some(value) = growing.value(alloc, &[], vars[i])? else {
            return Ok(false);
        };
        match value.cmp(other) {
            Ordering::Less => return Ok(false),
            Ordering::Equal => {}
            Ordering::Greater => return Ok(true),
        }
    }
    Ok(false)
}

// Whether what is decided of the start is greater than the binding's. Then no lesser binding begins
// with the decisions.
fn is_past_first(
    alloc: Global,
    problem: &Lesser<'_>,
    growing: &Growing<'_>,
) -> Result<bool, NoMemory>
    requires branch { IsLesserBranch problem.now.sought problem.now.than growing.now }
    requires some { 0 < length growing.now.decisions }
    ensures { IfOk result (λ yes. IsTrue yes →
        NoneLeads (LeadsBelow problem.now.sought problem.now.than) growing.now.decisions) }
{
    let Some(node) = problem.than.binding().nodes.as_slice().first() else {
        return Ok(false);
    };
    let Some(transition) = transition_in(problem.sought.system(), problem.sought.start()) else {
        return Ok(false);
    };
    is_past(
        alloc,
        growing,
        transition.vars.as_slice(),
        node.values.as_slice(),
    )
}

impl<'a> Grows for LesserBranch<'a> {
    ghost use Rattle.rn_search.specs.Points.{offers};
    ghost use Rattle.rn_search.specs.Allowing.{Allows};
    ghost use Rattle.rn_search.specs.Room.{room};
    ghost use Rattle.rn_search.proofs.Following.{fewer_lead};
    ghost use Rattle.rn_search.proofs.Alternatives.{one_way};
    ghost use Rattle.rn_branch.specs.GoingOn.{IsAtEnd};
    ghost use Rattle.rn_finder.specs.Lesser.{LeadsBelow, IsLesserBranch};

    type Problem = Lesser<'a>;

    type Site = Point;

    type Decision = Decision;

    type Solution = Candidate;

    ghost decisions = { λ _ b. b.branch.decisions };

    ghost stands = { λ p b. IsLesserBranch p.sought p.than b.branch };

    ghost leads = { λ p ds b. LeadsBelow p.sought p.than ds b };

    ghost offers = { λ p ds site a. offers p.sought ds site a };

    ghost ends = { λ p b. IsAtEnd p.sought b.branch };

    ghost allows = { λ p ds site a. Allows p.sought ds site a };

    ghost room = { λ p ds. room p.sought.system p.sought.depth ds };

    fn count(&self, problem: &Lesser<'a>) -> usize {
        self.branch.count(&problem.sought)
    }

    fn next(&mut self, problem: &Lesser<'a>) -> Result<Next<Point>, NoMemory> {
        if self.branch.count(&problem.sought) > 0 {
            let growing = self.branch.growing();
            if is_past_first(self.alloc, problem, growing)? {
                return Ok(Next::Stuck);
            }
        }
        self.branch.next(&problem.sought)
    }

    fn solution(&self, alloc: Global, problem: &Lesser<'a>) -> Result<Option<Candidate>, NoMemory> {
        let Some(found) = self.branch.solution(alloc, &problem.sought)? else {
            return Ok(None);
        };
        if compare_bindings(found.binding(), problem.than.binding()).is_lt() {
            Ok(Some(found))
        } else {
            Ok(None)
        }
    }

    fn vain_from(&self, problem: &Lesser<'a>, site: Point, alternative: usize) -> usize {
        self.branch.vain_from(&problem.sought, site, alternative)
    }

    fn push(
        &mut self,
        problem: &Lesser<'a>,
        site: Point,
        alternative: usize,
    ) -> Result<bool, NoMemory> {
        self.branch.push(&problem.sought, site, alternative)
    }

    fn undo(&mut self, problem: &Lesser<'a>, count: usize) {
        self.branch.undo(&problem.sought, count)
    }

    ghost shorter = { λ p ds es b leads. (fewer_lead p.sought ds es b leads.0, leads.1) };

    ghost one_way = { λ p ds site a c b one other.
        one_way p.sought ds site a c b one.0 other.0 };
}
