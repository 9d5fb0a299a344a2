//! Which instances are known to be idle, from one search to the next. It is brought up to date for
//! a table before that is searched, or given up where this is dearer or memory runs out. So what is
//! known is so of this table, however the search before ended (`docs/SEARCH.md`, 'What is searched
//! again').
ghost use Rattle.std.specs.Prelude.{◌≡◌, ◌↔◌, ℕ, ⊤, IfOk, OnOk, IfSome, IsNone, MatchOption, Contains};
ghost use Rattle.rn_model.specs.declared.system.System.{System as Whole};
ghost use Rattle.rn_model.specs.Enabling.{Enabled, DeadAt};
ghost use Rattle.rn_model.specs.Good.{Good};
ghost use Rattle.rn_model.specs.Markings.{Marking};
ghost use Rattle.rn_channel.specs.link.Uplinks.{AreUplinksOf};
ghost use Rattle.rn_search.specs.Problems.{HasFitTokens};
ghost use Rattle.rn_table.specs.Tables.{IsTableOf};
ghost use Rattle.rn_finder.specs.Idle.{IsIn};
ghost use Rattle.rn_firsts.specs.Known.{ComesAfter, HasFewPlaces};
ghost use Rattle.rn_firsts.specs.Resting.{KnowsIdle};

use crate::following::hold_changes;
use crate::marked::Marked;
use crate::pace::{Credit, FEW, LookPace, weight_within};
use rn_binding::Candidate;
use rn_channel::Uplinks;
use rn_choices::Asked;
use rn_finder::{Finding, Idle};
use rn_holders::may_reach;
use rn_items::NoMemory;
use rn_model::{Nums, System};
use rn_table::Table;
use std::alloc::Global;
use std::marker::Model;

/// What a searcher knows from one search to the next: the instances in which no enabled binding starts,
/// as far as it looked; and which instances may refer to which.
#[derive(Drop)]
pub struct KnownIdle {
    idle: Idle,
    holders: Vec<Nums>,
    held: bool,
    pace: LookPace,
    credit: Credit,
}

impl Model for KnownIdle {
    ghost use Rattle.std.specs.Coded.{codes};
    ghost use Rattle.rn_firsts.specs.Resting.{Resting};

    ghost Value = { Resting };

    ghost coded = { Prim.hlevel codes };

    ghost view = { λ k. record {
      idle = k.idle;
      held = k.held;
      holders = k.holders.items;
    } };
}

// Of these it isn't known any more.
fn remove_all(numbers: &[u32], idle: &mut Idle)
    ensures { (n : ℕ) → IsIn idle.new n → IsIn idle.old n × ¬ Contains numbers.now n }
{
    for number in numbers {
        idle.remove(*number);
    }
}

impl KnownIdle {
    /// Of no instance it is known. It takes no memory.
    pub fn new(alloc: Global) -> KnownIdle
        ensures { (system : Whole) (m : Marking) (depth : ℕ) → KnowsIdle system m depth result }
    {
        KnownIdle {
            idle: Idle::new(alloc),
            holders: Vec::new(alloc),
            held: false,
            pace: LookPace::new(),
            credit: Credit::new(),
        }
    }

    // Of none it is known any more. Where there are few instances, or this is to be so for some searches,
    // that stays so.
    fn forget(&mut self, table: &Table)
        ensures { (system : Whole) (m : Marking) (depth : ℕ) → KnowsIdle system m depth self.new }
    {
        let grows = table.next() > FEW && !self.pace.rests();
        self.idle.clear(grows);
        self.pace.forget();
        self.held = false;
    }

    // Of what may reach a changed instance it isn't known any more.
    fn mark(&mut self, alloc: Global, table: &Table, changed: &[u32]) -> Result<(), NoMemory>
        requires { HasFewPlaces table.now.marking }
        ensures { OnOk result ((system : Whole) (before : Marking) (depth : ℕ) →
            KnowsIdle system before depth self.old →
            ComesAfter system changed.now before table.now.marking →
            KnowsIdle system table.now.marking depth self.new) }
    {
        hold_changes(table, changed, self.held, &mut self.holders)?;
        self.held = true;
        let found = may_reach(alloc, self.holders.as_slice(), changed)?;
        let numbers = found.as_slice();
        self.pace.count(numbers.len());
        remove_all(numbers, &mut self.idle);
        Ok(())
    }

    // Whether what is known is to be brought up to date after a change in these instances: that costs no
    // more than it has spared so far.
    fn is_due(&mut self, table: &Table, changed: &[u32]) -> bool
        ensures { self.new ≡ self.old }
    {
        let count = self.idle.count();
        let looked = self.pace.know(count);
        let spared = self.idle.take_passed().saturating_add(looked as u64);
        self.credit.earn(spared, count);
        if !self.pace.is_due() {
            return false;
        }
        match weight_within(table, changed, self.held, self.credit.left()) {
            Some(weight) => {
                self.credit.pay(weight);
                true
            }
            None => {
                self.pace.rest_longer();
                false
            }
        }
    }

    // What is known of a table is brought up to date for one that comes after it with a change in these
    // instances. Where that is dearer than to look again, or there is no memory for it, nothing is known.
    fn follow(&mut self, alloc: Global, table: &Table, changed: &[u32])
        requires { HasFewPlaces table.now.marking }
        ensures { (system : Whole) (before : Marking) (depth : ℕ) →
            KnowsIdle system before depth self.old →
            ComesAfter system changed.now before table.now.marking →
            KnowsIdle system table.now.marking depth self.new }
    {
        if !self.is_due(table, changed) {
            self.forget(table);
            return;
        }
        match self.mark(alloc, table, changed) {
            Ok(()) => {}
            Err(_) => self.forget(table),
        }
    }

    // The same, where it is known what changed, and else nothing is known.
    fn turn_to(&mut self, alloc: Global, table: &Table, changed: Option<&[u32]>)
        requires { HasFewPlaces table.now.marking }
        ensures { (system : Whole) (depth : ℕ) → MatchOption changed.entry ⊤ (λ c. (before : Marking)
            × KnowsIdle system before depth self.old
            × ComesAfter system c.now before table.now.marking) →
            KnowsIdle system table.now.marking depth self.new }
    {
        match changed {
            Some(changed) => self.follow(alloc, table, changed),
            None => self.forget(table),
        }
    }

    // What a searcher finds, which passes over what is known.
    fn search<A: Asked>(
        &mut self,
        alloc: Global,
        asked: &A,
        finding: &mut Finding,
        marked: Marked<'_>,
    ) -> Result<Option<Candidate>, A::Halt>
        requires good { Good marked.system.now }
        requires own { AreUplinksOf marked.system.now marked.uplinks.now }
        requires table { IsTableOf marked.system.now marked.table.now }
        requires tokens { HasFitTokens marked.system.now marked.table.now.marking }
        requires known { KnowsIdle marked.system.now marked.table.now.marking marked.depth
            self.old }
        ensures found { IfOk result (λ found. IfSome found (λ b. Enabled marked.entry.system.now
            marked.entry.table.now.marking b marked.entry.depth)) }
        ensures none { IfOk result (λ found. IsNone found
            ↔ DeadAt marked.entry.system.now marked.entry.table.now.marking marked.entry.depth) }
        ensures known { KnowsIdle marked.entry.system.now marked.entry.table.now.marking
            marked.entry.depth self.new }
    {
        finding.find_beside(
            alloc,
            asked,
            marked.system,
            marked.uplinks,
            marked.table,
            marked.depth,
            &mut self.idle,
        )
    }

    /// What a searcher finds at the table within the depth (`Finding::find_while`), which passes over the
    /// instances that are known to be idle.
    ///
    /// The instances in which the table may differ from that of the last search are `changed`. With
    /// `None` nothing is known. However the search ends, what is known then is so of this table.
    pub fn find_while<A: Asked>(
        &mut self,
        alloc: Global,
        asked: &A,
        finding: &mut Finding,
        system: &System,
        uplinks: &Uplinks,
        table: &Table,
        depth: u32,
        changed: Option<&[u32]>,
    ) -> Result<Option<Candidate>, A::Halt>
        requires good { Good system.now }
        requires own { AreUplinksOf system.now uplinks.now }
        requires table { IsTableOf system.now table.now }
        requires tokens { HasFitTokens system.now table.now.marking }
        requires few { HasFewPlaces table.now.marking }
        requires changed { MatchOption changed ⊤ (λ c. (before : Marking)
            × KnowsIdle system.now before depth self.old
            × ComesAfter system.now c.now before table.now.marking) }
        ensures found { IfOk result (λ found. IfSome found
            (λ b. Enabled system.now table.now.marking b depth)) }
        ensures none { IfOk result (λ found. IsNone found
            ↔ DeadAt system.now table.now.marking depth) }
        ensures known { KnowsIdle system.now table.now.marking depth self.new }
    {
        let marked = Marked {
            system,
            uplinks,
            table,
            depth,
        };
        self.turn_to(alloc, table, changed);
        self.search(alloc, asked, finding, marked)
    }
}
