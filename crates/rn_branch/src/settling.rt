//! A binding that grows, with how many of its first decisions are settled, and the operator
//! applications of its nodes. What is settled stays so with further decisions, so looks begin after
//! it. How many were settled is kept beside each decision, so that it is known again after going
//! back (`docs/SEARCH.md`, 'What it does next').
ghost use Rattle.std.specs.Prelude.{◌≡◌, ◌<◌, ◌≤◌, [], IfOk, OnErr, OnOk, length};
ghost use Rattle.std.specs.Prelude.{vec_capacity};
ghost use Rattle.rn_growing.specs.Grown.{HasFewCreations, IsNew, Tries, first_decisions};
ghost use Rattle.rn_growing.specs.Turns.{MayCome};
ghost use Rattle.rn_looking.specs.Applying.{AreApplied, AreAppliedIn};
ghost use Rattle.rn_looking.specs.Branches.{IsBranchOf};
ghost use Rattle.rn_looking.specs.Looks.{Looked};
ghost use Rattle.rn_looking.specs.Things.{IsOfEntries};

use crate::entered::EnteredPaths;
use crate::reached::begin_near;
use crate::room::BranchRoom;
use rn_binding::{Application, applications_of};
use rn_choices::Next;
use rn_growing::{Decision, Growing, transition_in};
use rn_items::Items;
use rn_looking::{Look, Remembered, Tested, TextChoice, look_at_all};
use rn_model::System;
use rn_search::{Point, Problem};
use rn_value::NoMemory;
use std::alloc::Global;
use std::marker::Model;

/// A binding that grows, with how many of its first decisions are settled, so that a look needn't
/// begin with the first again, and with the operator applications of each node that was entered,
/// so that a look needn't list them again.
#[derive(Drop)]
pub(crate) struct Settling<'a> {
    system: &'a System,
    growing: Growing<'a>,
    settled: usize,

    /// How many were settled before each decision.
    before: Vec<usize>,

    /// Beside each decision the operator applications of the node that it enters.
    applications: Vec<Items<Application<'a>>>,

    /// What looks keep for those that follow.
    kept: Remembered,

    /// Of how many nodes guards and arcs were known to hold before each decision.
    tested_before: Vec<Tested>,

    /// The choices that were met, and how many decisions stood before each.
    choices: Vec<(usize, TextChoice)>,

    /// The nodes that were entered, where that was asked for.
    entries: EnteredPaths,
}

impl<'a> Model for Settling<'a> {
    ghost use Rattle.rn_growing.specs.Grown.{Grown};
    ghost use Rattle.rn_value.specs.contracts.value.Value as value;
    ghost use Rattle.rn_value.specs.contracts.value.Kind as kind;
    ghost use Rattle.rn_model.specs.contracts.expr.Expr as expr;
    ghost use Rattle.rn_model.specs.contracts.expr.Cond as cond;
    ghost use Rattle.rn_branch.specs.Keeping.{KeepsSettled};
    ghost use Rattle.rn_branch.specs.Keeping.{KeepsApplied};
    ghost use Rattle.std.specs.Coded.{codes};

    ghost Value = { Grown };

    ghost coded = { Prim.hlevel (
      codes,
      value.the_row.coded,
      kind.the_row.coded,
      expr.the_row.coded,
      cond.the_row.coded,
    ) };

    ghost view = { λ s. s.growing };

    ghost invariant = { λ s. KeepsSettled s.growing s.settled s.before.items
        × KeepsApplied s.system.now s.growing s.applications.items };
}

impl<'a> Settling<'a> {
    /// Nothing is decided. It is in the room of another one, and takes no memory.
    pub(crate) fn open_in(alloc: Global, room: BranchRoom, system: &'a System) -> Settling<'a>
        requires { HasFewCreations system.now }
        ensures { result ≡ record { system = system.now; decisions = [] } }
    {
        let BranchRoom {
            growing,
            before,
            tested_before,
            choices,
            entries,
        } = room;
        Settling {
            system,
            growing: Growing::open_in(growing, system),
            settled: 0,
            before,
            applications: Vec::new(alloc),
            kept: Remembered::none(),
            tested_before,
            choices,
            entries,
        }
    }

    /// Its room, for another one. The operator applications are of its system, so their vector
    /// isn't kept.
    pub(crate) fn into_room(self) -> BranchRoom {
        let Settling {
            growing,
            mut before,
            mut tested_before,
            mut choices,
            mut entries,
            ..
        } = self;
        before.clear();
        tested_before.clear();
        choices.clear();
        entries.truncate(0);
        BranchRoom {
            growing: growing.into_room(),
            before,
            tested_before,
            choices,
            entries,
        }
    }

    /// The binding.
    pub(crate) fn growing(&self) -> &Growing<'a>
        ensures { result.now ≡ self.now }
    {
        &self.growing
    }

    /// The decisions, the oldest first.
    pub(crate) fn decisions(&self) -> &[Decision]
        ensures { result.now ≡ self.now.decisions }
    {
        self.growing.decisions()
    }

    /// Beside each decision the operator applications of the node that it enters.
    pub(crate) fn applications(&self) -> &[Items<Application<'a>>]
        ensures { AreAppliedIn self.now.system self.now.decisions result.now }
    {
        self.applications.as_slice()
    }

    /// How many decisions there are.
    pub(crate) fn mark(&self) -> usize
        ensures { result ≡ length self.now.decisions }
    {
        self.growing.mark()
    }

    /// Looks at all that is asked and may not be decided, and keeps how many decisions are settled.
    pub(crate) fn look(
        &mut self,
        alloc: Global,
        problem: &Problem<'_>,
        first: usize,
    ) -> Result<Look, NoMemory>
        requires { IsBranchOf problem.now self.old }
        ensures looked { IfOk result (λ look. Looked problem.now self.old.decisions
            (IsOfEntries self.old.decisions (length self.old.decisions)) look) }
        ensures same { self.new ≡ self.old }
    {
        let applications = self.applications.as_slice();
        self.kept.settle(self.settled);
        let decisions = self.growing.decisions();
        begin_near(
            alloc,
            self.system,
            decisions,
            &mut self.entries,
            &mut self.kept,
        )?;
        let looked = look_at_all(
            alloc,
            problem,
            &self.growing,
            applications,
            first,
            self.settled,
            &mut self.kept,
        )?;
        note_choice(&mut self.choices, self.growing.decisions(), looked.0);
        self.settled = looked.1;
        Ok(looked.0)
    }

    /// One more decision, where it can be satisfied.
    pub(crate) fn decide(&mut self, alloc: Global, decision: Decision) -> Result<bool, NoMemory>
        requires may_come { MayCome self.old.system self.old.decisions decision }
        requires fresh { IsNew self.old.decisions decision }
        ensures tries { IfOk result (λ yes. Tries self.old decision self.new yes) }
    {
        let applications = applications_in(alloc, self.system, &decision)?;
        make_room(
            &mut self.before,
            &mut self.applications,
            &mut self.tested_before,
            &mut self.choices,
        )?;
        if !decide(alloc, &mut self.growing, decision)? {
            return Ok(false);
        }
        self.before.push_reserved(self.settled);
        self.applications.push_reserved(applications);
        self.tested_before.push_reserved(self.kept.tested());
        Ok(true)
    }

    /// Takes back the decisions that came after so many.
    pub(crate) fn undo(&mut self, count: usize)
        requires { count ≤ length self.old.decisions }
        ensures { self.new ≡ first_decisions count self.old }
    {
        if count >= self.before.len() {
            return;
        }
        self.settled = self.before[count];
        self.before.truncate(count);
        self.applications.truncate(count);
        self.kept
            .set_tested(tested_at(self.tested_before.as_slice(), count));
        self.kept.go_back();
        fail_beyond(&mut self.choices, &mut self.kept, count);
        self.entries.truncate(count);
        self.tested_before.truncate(count);
        self.growing.undo(count);
    }
}

// Room for what is kept beside one more decision.
fn make_room(
    before: &mut Vec<usize>,
    applications: &mut Vec<Items<Application<'_>>>,
    tested_before: &mut Vec<Tested>,
    choices: &mut Vec<(usize, TextChoice)>,
) -> Result<(), NoMemory>
    ensures before { before.new.items ≡ before.old.items }
    ensures applications { applications.new.items ≡ applications.old.items }
    ensures room { OnOk result (length before.new.items < vec_capacity before.new) }
    ensures place { OnOk result (length applications.new.items < vec_capacity applications.new) }
    ensures space { OnOk result
        (length tested_before.new.items < vec_capacity tested_before.new) }
{
    before.reserve(1)?;
    applications.reserve(1)?;
    tested_before.reserve(1)?;
    choices.reserve(1)?;
    Ok(())
}

// What was tested before a decision, or nothing where that isn't kept.
fn tested_at(before: &[Tested], index: usize) -> Tested {
    match before.get(index) {
        Some(tested) => *tested,
        None => Tested::none(),
    }
}

// The choice by which a look goes on, where it does.
fn choice_of(decisions: &[Decision], look: Look) -> Option<TextChoice> {
    let Look::Goes(Next::Choose(point, _, _), _) = look else {
        return None;
    };
    match point {
        Point::Token(node, _, _) => match decisions.get(node) {
            Some(Decision::Entered(head, _)) => Some(TextChoice::tokens(head)),
            _ => None,
        },
        Point::Call(node, i, _) => match decisions.get(node) {
            Some(Decision::Entered(head, _)) => Some(TextChoice::call(head, i)),
            _ => None,
        },
        _ => None,
    }
}

// Notes the choice by which a look goes on, where it does. There is room for it since a decision was
// made; without it the choice isn't noted.
fn note_choice(choices: &mut Vec<(usize, TextChoice)>, decisions: &[Decision], look: Look) {
    let Some(choice) = choice_of(decisions, look) else {
        return;
    };
    let _noted = choices.push((decisions.len(), choice)).is_ok();
}

// The choices that were met after so many decisions were gone through in vain.
fn fail_beyond(choices: &mut Vec<(usize, TextChoice)>, kept: &mut Remembered, count: usize) {
    for _ in 0..choices.len() {
        let Some(last) = choices.as_slice().last() else {
            return;
        };
        if last.0 <= count {
            return;
        }
        kept.fail(last.1);
        choices.pop();
    }
}

// The operator applications of the node that a decision enters.
fn applications_in<'a>(
    alloc: Global,
    system: &'a System,
    decision: &Decision,
) -> Result<Items<Application<'a>>, NoMemory>
    ensures { IfOk result (λ found. AreApplied system.now decision.now found) }
{
    match decision {
        Decision::Entered(head, _) => match transition_in(system, head) {
            Some(transition) => Ok(Items::from_vec(applications_of(alloc, transition)?)),
            None => Ok(Items::new(alloc)),
        },
        Decision::Found(_, _, _) => Ok(Items::new(alloc)),
        Decision::Computed(_, _, _, _) => Ok(Items::new(alloc)),
    }
}

// One more decision, where it can be satisfied.
fn decide(alloc: Global, growing: &mut Growing<'_>, decision: Decision) -> Result<bool, NoMemory>
    requires may_come { MayCome growing.old.system growing.old.decisions decision }
    requires fresh { IsNew growing.old.decisions decision }
    ensures tries { IfOk result (λ yes. Tries growing.old decision growing.new yes) }
    ensures err { OnErr result (growing.new ≡ growing.old) }
{
    match decision {
        Decision::Entered(head, caller) => growing.enter(alloc, head, caller),
        Decision::Found(head, arc, value) => growing.find(alloc, head, arc, value),
        Decision::Computed(head, site, way, value) => {
            growing.compute(alloc, head, site, way, value)
        }
    }
}
