//! A branch of a search: what is decided, and how it goes on. It implements `Grows`, so the search
//! over choices (`rn_choices`) knows neither nets nor tokens. Alternatives that lead nowhere are
//! given up before their decision; the rest of *enabled* is looked at where the binding is made
//! (`docs/SEARCH.md`, 'What it does next').
ghost use Rattle.std.specs.Prelude.{◌≡◌, ◌↔◌, IfOk, [], IsTrue, map};
ghost use Rattle.rn_binding.specs.link.Applications.{application_of};
ghost use Rattle.rn_growing.specs.Decisions.{transition_in};
ghost use Rattle.rn_growing.specs.Grown.{HasFewCreations};
ghost use Rattle.rn_search.specs.Allowing.{Allows};
ghost use Rattle.rn_search.specs.Points.{holes_of, node_of, offered};
ghost use Rattle.rn_search.specs.Solving.{Passes};
ghost use Rattle.rn_search.specs.declared.point.Point.TheVariants as P;
ghost use Rattle.rn_looking.specs.Applying.{AreAppliedIn};
ghost use Rattle.rn_branch.specs.GoingOn.{IsEntryAt};
ghost use Rattle.rn_branch.specs.GoingOn.{AreHeadsIn, IsHeadIn};
ghost use Rattle.rn_branch.specs.GoingOn.{IsNextOf};

use crate::beginning::begun;
use crate::made::binding_of;
use crate::refusals::Refusals;
use crate::room::BranchRoom;
use crate::settling::Settling;
use crate::takings::TakingCounts;
use crate::testing::{Tests, forget_beyond};
use crate::tried::{Tried, TriedResult};
use crate::trying::is_vain;
use crate::vain::{lacking_at, repeats_at};
use rn_agree::{does_agree, has_shape};
use rn_arcs::fits;
use rn_binding::{Application, Candidate, applications_of};
use rn_choices::{Grows, Next};
use rn_growing::{Decision, Growing, Way, copy_head};
use rn_items::Items;
use rn_looking::{Look, transition_in};
use rn_model::{Binding, System};
use rn_search::{Point, Problem};
use rn_value::{NoMemory, Value};
use std::alloc::Global;
use std::marker::Model;
use std::mem;

/// At each alternative of so many it is asked how many are repeats of a token, where none was met.
const SELDOM: usize = 64;

/// What is decided of a binding in a search, and with which alternative choices of tokens begin.
#[derive(Drop)]
pub struct Branch<'a> {
    alloc: Global,
    growing: Settling<'a>,
    first: usize,

    /// The point of which an alternative was tried last.
    last: Option<Point>,

    /// Guards to be tested before a decision is made.
    tests: Option<Tests>,

    /// Whether the alternative that was tried last is no decision, as the repeat of a token.
    repeated: bool,

    /// What the decisions take.
    takings: TakingCounts,

    /// How the last alternatives of its point went.
    refusals: Refusals,
}

impl<'a> Model for Branch<'a> {
    ghost use Rattle.rn_growing.specs.Grown.{Grown};
    ghost use Rattle.rn_value.specs.contracts.value.Value as value;
    ghost use Rattle.rn_value.specs.contracts.value.Kind as kind;
    ghost use Rattle.rn_model.specs.contracts.expr.Expr as expr;
    ghost use Rattle.rn_model.specs.contracts.expr.Cond as cond;
    ghost use Rattle.rn_branch.specs.Takings.{AreTakings};
    ghost use Rattle.rn_branch.specs.Testing.{AreKept};
    ghost use Rattle.std.specs.Coded.{codes};

    ghost Value = { Grown };

    ghost coded = { Prim.hlevel (
      codes,
      value.the_row.coded,
      kind.the_row.coded,
      expr.the_row.coded,
      cond.the_row.coded,
    ) };

    ghost view = { λ b. b.growing };

    ghost invariant = { λ b. AreKept b.growing b.tests
        × AreTakings b.growing.system b.growing.decisions b.takings };
}

impl<'a> Branch<'a> {
    /// Nothing is decided. Choices of a token begin with this one of them, round, or from `SHARES` on
    /// with this share of them. It takes no memory.
    pub fn open(alloc: Global, system: &'a System, first: usize) -> Branch<'a>
        requires { HasFewCreations system.now }
        ensures { result ≡ record { system = system.now; decisions = [] } }
    {
        Branch::open_in(alloc, BranchRoom::new(alloc), system, first)
    }

    /// The same, in the room of another branch.
    pub fn open_in(alloc: Global, room: BranchRoom, system: &'a System, first: usize) -> Branch<'a>
        requires { HasFewCreations system.now }
        ensures { result ≡ record { system = system.now; decisions = [] } }
    {
        Branch {
            alloc,
            growing: Settling::open_in(alloc, room, system),
            first,
            last: None,
            tests: None,
            repeated: false,
            takings: TakingCounts::new(alloc),
            refusals: Refusals::none(),
        }
    }

    /// What is decided.
    pub fn growing(&self) -> &Growing<'a>
        ensures { result.now ≡ self.now }
    {
        self.growing.growing()
    }

    /// Its room, for another branch.
    pub fn into_room(self) -> BranchRoom {
        let Branch { growing, .. } = self;
        growing.into_room()
    }
}

// The value of one of these operator applications of a node as a decision.
fn result_among(
    alloc: Global,
    problem: &Problem<'_>,
    decisions: &[Decision],
    found: &[Application<'_>],
    tried: TriedResult,
) -> Result<Option<Decision>, NoMemory>
    requires { map application_of found.now ≡ holes_of (transition_in problem.now.system
        (node_of problem.now decisions.now tried.node)) }
    ensures { IfOk result
        (λ d. d ≡ offered problem.now decisions.now (P.Result tried.node tried.k tried.n) tried.a) }
{
    if tried.a > 0 {
        return Ok(None);
    }
    let Some(application) = found.get(tried.k) else {
        return Ok(None);
    };
    let way = Way::from_vec(Vec::from_slice(alloc, application.way.as_slice())?);
    let head = copy_head(alloc, problem.node_of(decisions, tried.node))?;
    let value = Value::Int(tried.n);
    Ok(Some(Decision::Computed(head, application.site, way, value)))
}

// Whether a decision enters a node.
fn is_entry(decisions: &[Decision], node: usize) -> bool
    ensures { IsTrue result → IsEntryAt decisions.now node }
{
    matches!(decisions.get(node), Some(Decision::Entered(_, _)))
}

// The value of an operator application as a decision. Those of a node that was entered stand
// beside its entry.
fn result_at(
    alloc: Global,
    problem: &Problem<'_>,
    decisions: &[Decision],
    applications: &[Items<Application<'_>>],
    tried: TriedResult,
) -> Result<Option<Decision>, NoMemory>
    requires head { IsHeadIn problem.now decisions.now tried.node }
    requires applied { AreAppliedIn problem.now.system decisions.now applications.now }
    ensures { IfOk result
        (λ d. d ≡ offered problem.now decisions.now (P.Result tried.node tried.k tried.n) tried.a) }
{
    if is_entry(decisions, tried.node) {
        let found = applications[tried.node].as_slice();
        return result_among(alloc, problem, decisions, found, tried);
    }
    let head = problem.node_of(decisions, tried.node);
    let found = applications_of(alloc, transition_in(problem.system(), head))?;
    result_among(alloc, problem, decisions, found.as_slice(), tried)
}

// The decision that an alternative means, where it is one.
fn decision_at(
    alloc: Global,
    problem: &Problem<'_>,
    decisions: &[Decision],
    applications: &[Items<Application<'_>>],
    point: Point,
    a: usize,
) -> Result<Option<Decision>, NoMemory>
    requires heads { AreHeadsIn problem.now decisions.now }
    requires applied { AreAppliedIn problem.now.system decisions.now applications.now }
    ensures { IfOk result (λ d. d ≡ offered problem.now decisions.now point a) }
{
    match point {
        Point::Start => problem.entry(alloc, a),
        Point::Token(node, arc, from) => problem.token(alloc, decisions, node, arc, from, a),
        Point::List(node, arc) => problem.list(alloc, decisions, node, arc, a),
        Point::Result(node, k, n) => {
            let tried = TriedResult { node, k, n, a };
            result_at(alloc, problem, decisions, applications, tried)
        }
        Point::Call(node, i, called) => problem.call(alloc, decisions, node, i, called, a),
    }
}

// Whether the point of which an alternative was tried last is this one.
fn is_again(last: Option<Point>, site: Point) -> bool {
    match last {
        Some(point) => point == site,
        None => false,
    }
}

// Whether it is looked at an alternative, how many tokens from it on are repeats, though none was met:
// seldom, so that it costs little where none is.
fn is_asked(alternative: usize) -> bool {
    alternative % SELDOM == SELDOM - 1
}

// Whether a binding that is made of decisions is enabled.
fn is_enabled(alloc: Global, problem: &Problem<'_>, binding: &Binding) -> Result<bool, NoMemory>
    ensures { IfOk result (λ yes. IsTrue yes ↔ Passes problem.now binding.now) }
{
    let system = problem.system();
    let depth = problem.depth();
    if !has_shape(system, depth, binding) {
        return Ok(false);
    }
    if !does_agree(alloc, system, depth, binding)? {
        return Ok(false);
    }
    fits(alloc, system, problem.table(), binding)
}

// How the search goes on by a look.
fn next_of(look: Look) -> Next<Point>
    ensures { IsNextOf look result }
{
    match look {
        Look::Done => Next::Done,
        Look::Waits => Next::Stuck,
        Look::Goes(next, _) => next,
    }
}

impl<'a> Grows for Branch<'a> {
    ghost use Rattle.rn_search.specs.Sought.{Leads};
    ghost use Rattle.rn_search.specs.Points.{offers};
    ghost use Rattle.rn_search.specs.Allowing.{Allows};
    ghost use Rattle.rn_search.specs.Room.{room};
    ghost use Rattle.rn_search.proofs.Following.{fewer_lead};
    ghost use Rattle.rn_search.proofs.Alternatives.{one_way};
    ghost use Rattle.rn_looking.specs.Branches.{IsBranchOf};
    ghost use Rattle.rn_branch.specs.GoingOn.{IsAtEnd};

    type Problem = Problem<'a>;

    type Site = Point;

    type Decision = Decision;

    type Solution = Candidate;

    ghost decisions = { λ _ b. b.decisions };

    ghost stands = { λ p b. IsBranchOf p b };

    ghost leads = { λ p ds b. Leads p ds b };

    ghost offers = { λ p ds site a. offers p ds site a };

    ghost ends = { λ p b. IsAtEnd p b };

    ghost allows = { λ p ds site a. Allows p ds site a };

    ghost room = { λ p ds. room p.system p.depth ds };

    fn count(&self, _problem: &Problem<'a>) -> usize {
        self.growing.mark()
    }

    fn next(&mut self, problem: &Problem<'a>) -> Result<Next<Point>, NoMemory> {
        // For its clause: the start may start a firing.
        let _start = problem.start();
        if self.growing.mark() == 0 {
            return Ok(Next::Forced(Point::Start));
        }
        let look = self.growing.look(self.alloc, problem, self.first)?;
        Ok(begun(problem, self.growing.decisions(), next_of(look)))
    }

    fn solution(
        &self,
        alloc: Global,
        problem: &Problem<'a>,
    ) -> Result<Option<Candidate>, NoMemory> {
        // For its clause: the system is good.
        let _system = problem.system();
        let Some(binding) = binding_of(alloc, problem, self.growing.growing())? else {
            return Ok(None);
        };
        if !is_enabled(alloc, problem, &binding)? {
            return Ok(None);
        }
        Ok(Some(Candidate::known(binding)))
    }

    fn push(
        &mut self,
        problem: &Problem<'a>,
        site: Point,
        alternative: usize,
    ) -> Result<bool, NoMemory> {
        // For its clause: the start may start a firing.
        let _start = problem.start();
        let again = is_again(self.last, site);
        self.last = Some(site);
        self.repeated = false;
        self.refusals = self.refusals.with(alternative, again);
        if is_vain(
            self.alloc,
            problem,
            self.growing.growing(),
            &mut self.tests,
            &mut self.takings,
            Tried {
                point: site,
                a: alternative,
                again,
            },
        )? {
            return Ok(false);
        }
        let decisions = self.growing.decisions();
        let applications = self.growing.applications();
        match decision_at(
            self.alloc,
            problem,
            decisions,
            applications,
            site,
            alternative,
        )? {
            Some(decision) => {
                let tests = self.tests.take();
                let takings = mem::replace(&mut self.takings, TakingCounts::new(self.alloc));
                let made = self.growing.decide(self.alloc, decision)?;
                self.tests = tests;
                self.takings = takings;
                Ok(made)
            }
            None => {
                self.repeated = true;
                Ok(false)
            }
        }
    }

    fn vain_from(&self, problem: &Problem<'a>, site: Point, alternative: usize) -> usize {
        let growing = self.growing.growing();
        if self.repeated || is_asked(alternative) {
            let repeats = repeats_at(problem, growing, site, alternative);
            if repeats > 0 {
                return repeats;
            }
        }
        if !self.refusals.are_many() || !is_again(self.last, site) {
            return 0;
        }
        lacking_at(self.alloc, problem, growing, site, alternative)
    }

    fn undo(&mut self, _problem: &Problem<'a>, count: usize) {
        forget_beyond(&mut self.tests, count);
        self.takings.truncate(count);
        self.growing.undo(count);
    }

    ghost shorter = { λ p ds es b leads. fewer_lead p ds es b leads };

    ghost one_way = { λ p ds site a c b one other. one_way p ds site a c b one other };
}
