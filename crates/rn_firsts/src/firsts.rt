//! What is known from one look to the next: below a number no instance starts a binding, but for
//! those that are to be looked at again. Only what may reach a changed instance can start one anew,
//! so after a firing few have to be searched, and the others not in vain once more
//! (`docs/SEARCH.md`, 'The first of all').
ghost use Rattle.std.specs.Prelude.{◌≡◌, ◌≢◌, ◌↔◌, ℕ, ⊤, false, IfOk, OnOk, IfSome, IsNone, MatchOption};
ghost use Rattle.std.specs.declared.cmp.Ordering.TheVariants.{Greater};
ghost use Rattle.rn_model.specs.declared.system.System.{System as Whole};
ghost use Rattle.rn_model.specs.declared.binding.Binding.{Binding};
ghost use Rattle.rn_model.specs.Enabling.{Enabled, DeadAt};
ghost use Rattle.rn_model.specs.Good.{Good};
ghost use Rattle.rn_model.specs.Markings.{Marking};
ghost use Rattle.rn_model.specs.Order.{binding_cmp};
ghost use Rattle.rn_channel.specs.link.Uplinks.{AreUplinksOf};
ghost use Rattle.rn_search.specs.Problems.{HasFitTokens};
ghost use Rattle.rn_table.specs.Tables.{IsTableOf};
ghost use Rattle.rn_finder.specs.First.{IsFirstOf};
ghost use Rattle.rn_firsts.specs.Known.{ComesAfter, HasFewPlaces, IsKnown};

use crate::following::{hold_changes, mark_all};
use crate::looking::{first_again, first_from};
use crate::marked::Marked;
use crate::pace::{LookPace, weight_within};
use rn_binding::Candidate;
use rn_channel::Uplinks;
use rn_finder::Room;
use rn_holders::may_reach;
use rn_items::NoMemory;
use rn_model::{Nums, System};
use rn_table::Table;
use std::alloc::Global;
use std::collections::BTreeSet;
use std::marker::Model;

/// Finds the first of the enabled bindings at one table after the other.
///
/// It knows of the instances below a number that no enabled binding starts in them, but for those that
/// are to be looked at again; and which instances may refer to which. It keeps the room of its searches
/// from one look to the next.
#[derive(Drop)]
pub struct Firsts {
    until: u32,
    again: BTreeSet<u32>,
    holders: Vec<Nums>,
    held: bool,
    pace: LookPace,
    room: Room,
}

impl Model for Firsts {
    ghost use Rattle.std.specs.Coded.{codes};
    ghost use Rattle.rn_firsts.specs.Known.{Known};

    ghost Value = { Known };

    ghost coded = { Prim.hlevel codes };

    ghost view = { λ f. record {
      until = f.until;
      again = f.again.keys;
      held = f.held;
      holders = f.holders.items;
    } };
}

impl Firsts {
    /// It knows nothing. It takes no memory.
    pub fn new(alloc: Global) -> Firsts
        ensures { (system : Whole) (m : Marking) (depth : ℕ) → IsKnown system m depth result }
    {
        Firsts {
            until: 0,
            again: BTreeSet::new(alloc),
            holders: Vec::new(alloc),
            held: false,
            pace: LookPace::new(),
            room: Room::new(alloc),
        }
    }

    // It knows nothing any more.
    fn forget(&mut self)
        ensures { (system : Whole) (m : Marking) (depth : ℕ) → IsKnown system m depth self.new }
    {
        self.until = 0;
        self.again.clear();
        self.held = false;
        self.pace.forget();
    }

    // What may reach a changed instance is to be looked at again.
    fn mark(&mut self, alloc: Global, table: &Table, changed: &[u32]) -> Result<(), NoMemory>
        requires { HasFewPlaces table.now.marking }
        ensures { OnOk result ((system : Whole) (before : Marking) (depth : ℕ) →
            IsKnown system before depth self.old →
            ComesAfter system changed.now before table.now.marking →
            IsKnown system table.now.marking depth self.new) }
    {
        hold_changes(table, changed, self.held, &mut self.holders)?;
        self.held = true;
        let found = may_reach(alloc, self.holders.as_slice(), changed)?;
        let numbers = found.as_slice();
        self.pace.count(numbers.len());
        mark_all(numbers, self.until, &mut self.again)?;
        Ok(())
    }

    // Whether what it knows is to be brought up to date after a change in these instances.
    fn is_due(&mut self, table: &Table, changed: &[u32]) -> bool
        ensures { self.new ≡ self.old }
    {
        if !self.pace.is_due() {
            return false;
        }
        weight_within(table, changed, self.held, self.pace.most()).is_some()
    }

    // What it knows of a table is brought up to date for one that comes after it with a change in these
    // instances. Where that is dearer than to look again, or there is no memory for it, it knows nothing.
    fn follow(&mut self, alloc: Global, table: &Table, changed: &[u32])
        requires { HasFewPlaces table.now.marking }
        ensures { (system : Whole) (before : Marking) (depth : ℕ) →
            IsKnown system before depth self.old →
            ComesAfter system changed.now before table.now.marking →
            IsKnown system table.now.marking depth self.new }
    {
        if !self.is_due(table, changed) {
            self.forget();
            return;
        }
        match self.mark(alloc, table, changed) {
            Ok(()) => {}
            Err(_) => self.forget(),
        }
    }

    // The same, where it is known what changed, and else it knows nothing.
    fn turn_to(&mut self, alloc: Global, table: &Table, changed: Option<&[u32]>)
        requires { HasFewPlaces table.now.marking }
        ensures { (system : Whole) (depth : ℕ) → MatchOption changed.entry ⊤ (λ c. (before : Marking)
            × IsKnown system before depth self.old
            × ComesAfter system c.now before table.now.marking) →
            IsKnown system table.now.marking depth self.new }
    {
        match changed {
            Some(changed) => self.follow(alloc, table, changed),
            None => self.forget(),
        }
    }

    // The first of all bindings.
    fn first(&mut self, alloc: Global, marked: Marked<'_>) -> Result<Option<Candidate>, NoMemory>
        requires good { Good marked.system.now }
        requires own { AreUplinksOf marked.system.now marked.uplinks.now }
        requires table { IsTableOf marked.system.now marked.table.now }
        requires tokens { HasFitTokens marked.system.now marked.table.now.marking }
        requires known { IsKnown marked.system.now marked.table.now.marking marked.depth self.old }
        ensures first { IfOk result (IsFirstOf marked.entry.system.now
            marked.entry.table.now.marking marked.entry.depth (λ b. ⊤)) }
        ensures known { IsKnown marked.entry.system.now marked.entry.table.now.marking
            marked.entry.depth self.new }
    {
        // For its clauses: the numbers of the instances ascend, and are below the next one.
        let _end = marked.table.next();
        let until = self.until;
        let again = &mut self.again;
        let room = &mut self.room;
        let found = first_again(alloc, marked, until, again, room)?;
        if let Some(first) = found {
            return Ok(Some(first));
        }
        let until = &mut self.until;
        let pace = &mut self.pace;
        let room = &mut self.room;
        first_from(alloc, marked, until, pace, room)
    }

    /// The first of all bindings that are enabled at the table within the depth, by `compare_bindings`, or
    /// `None` exactly where there is none.
    ///
    /// The instances in which the table may differ from that of the last look are `changed`. With
    /// `None` it begins from nothing.
    pub fn look(
        &mut self,
        alloc: Global,
        system: &System,
        uplinks: &Uplinks,
        table: &Table,
        depth: u32,
        changed: Option<&[u32]>,
    ) -> Result<Option<Candidate>, NoMemory>
        requires good { Good system.now }
        requires own { AreUplinksOf system.now uplinks.now }
        requires table { IsTableOf system.now table.now }
        requires tokens { HasFitTokens system.now table.now.marking }
        requires few { HasFewPlaces table.now.marking }
        requires changed { MatchOption changed ⊤ (λ c. (before : Marking)
            × IsKnown system.now before depth self.old
            × ComesAfter system.now c.now before table.now.marking) }
        ensures least { IfOk result (λ found. IfSome found (λ b.
            Enabled system.now table.now.marking b depth
            × ((c : Binding) → Enabled system.now table.now.marking c depth →
            binding_cmp b c ≢ Greater))) }
        ensures none { IfOk result (λ found. IsNone found
            ↔ DeadAt system.now table.now.marking depth) }
        ensures known { IsKnown system.now table.now.marking depth self.new }
    {
        let marked = Marked {
            system,
            uplinks,
            table,
            depth,
        };
        self.turn_to(alloc, table, changed);
        self.first(alloc, marked)
    }
}
