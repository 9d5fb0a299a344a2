//! The first of all bindings at one table after the other. Instances are taken in the order of
//! their numbers. What was kept of one is brought to the new table, and gives the first that starts
//! there without a search (`docs/SEARCH.md`, 'A place that parts').
ghost use Rattle.std.specs.Prelude.{◌≡◌, ◌≢◌, ◌↔◌, ℕ, ⊤, IfOk, IfSome, IsNone, MatchOption};
ghost use Rattle.std.specs.Option.{option_copied};
ghost use Rattle.std.specs.declared.cmp.Ordering.TheVariants.{Greater};
ghost use Rattle.rn_model.specs.declared.system.System.{System as Whole};
ghost use Rattle.rn_model.specs.declared.binding.Binding.{Binding};
ghost use Rattle.rn_model.specs.Enabling.{Enabled, DeadAt};
ghost use Rattle.rn_model.specs.Good.{Good};
ghost use Rattle.rn_model.specs.Markings.{Marking};
ghost use Rattle.rn_model.specs.Order.{binding_cmp};
ghost use Rattle.rn_channel.specs.link.Uplinks.{AreUplinksOf};
ghost use Rattle.rn_reach.specs.Reach.{DifferAtMostIn};
ghost use Rattle.rn_search.specs.Problems.{HasFitTokens};
ghost use Rattle.rn_table.specs.Tables.{IsTableOf};
ghost use Rattle.rn_finder.specs.First.{IsFirstOf};
ghost use Rattle.rn_finder.specs.Starting.{HasStartIn, IsSearchable};
ghost use Rattle.rn_parted.specs.Parted.{IsKept, Parted};

use crate::kept::PartedFirst;
use crate::marked::Marked;
use rn_binding::Candidate;
use rn_channel::Uplinks;
use rn_finder::{Room, least_of};
use rn_items::NoMemory;
use rn_model::{System, copy_binding};
use rn_table::Table;
use std::alloc::Global;
use std::marker::Model;

/// After how many looks in a row that found their first in one instance something is kept of it.
const TIMES: u32 = 3;

/// How many it takes at most, where that couldn't be kept before; and how many instances take one
/// more, since each is looked at when something is kept.
const LONGEST: u32 = 64;

const LIGHT: u32 = 16;

/// Finds the first of the enabled bindings at one table after the other.
///
/// It may keep what one instance gives for each token of one of its places, and the room of its
/// searches.
#[derive(Drop)]
pub struct PartedFirsts {
    kept: Option<PartedFirst>,
    room: Room,

    /// In which instance the looks so far found their first, and how many in a row.
    number: u32,
    count: u32,

    /// How many these have to be.
    times: u32,
}

impl Model for PartedFirsts {
    ghost use Rattle.std.specs.Prelude.{Option};
    ghost use Rattle.std.specs.Coded.{codes};
    ghost use Rattle.rn_value.specs.contracts.value.Value as value;
    ghost use Rattle.rn_model.specs.link.MarkingCodes.{marking_code};
    ghost use Rattle.rn_parted.specs.Parted.{Parted};

    ghost Value = { Option Parted };

    ghost coded = { Prim.hlevel (codes, marking_code, value.the_row.coded) };

    ghost view = { λ f. f.kept };
}

// A copy of a binding.
fn copied(alloc: Global, found: Option<&Candidate>) -> Result<Option<Candidate>, NoMemory>
    ensures { IfOk result (λ o. o ≡ option_copied found.entry) }
{
    match found {
        None => Ok(None),
        Some(first) => Ok(Some(Candidate::known(copy_binding(alloc, first.binding())?))),
    }
}

// The first that starts in an instance: what is kept tells, or a search.
fn first_in(
    alloc: Global,
    marked: Marked<'_>,
    kept: Option<&PartedFirst>,
    number: u32,
    room: &mut Room,
) -> Result<Option<Candidate>, NoMemory>
    requires searched { IsSearchable marked.system.now marked.uplinks.now marked.table.now }
    requires kept { IsKept marked.system.now marked.table.now.marking marked.depth
        (option_copied kept) }
    ensures { IfOk result (IsFirstOf marked.entry.system.now marked.entry.table.now.marking
        marked.entry.depth (HasStartIn number)) }
{
    if let Some(parted) = kept {
        if parted.instance == number {
            return copied(alloc, parted.first());
        }
    }
    least_of(
        alloc,
        marked.system,
        marked.uplinks,
        marked.table,
        marked.depth,
        number,
        room,
    )
}

// The first of all, and where it starts.
fn first_at(
    alloc: Global,
    marked: Marked<'_>,
    kept: Option<&PartedFirst>,
    room: &mut Room,
    at: &mut u32,
) -> Result<Option<Candidate>, NoMemory>
    requires searched { IsSearchable marked.system.now marked.uplinks.now marked.table.now }
    requires kept { IsKept marked.system.now marked.table.now.marking marked.depth
        (option_copied kept) }
    ensures { IfOk result (IsFirstOf marked.entry.system.now marked.entry.table.now.marking
        marked.entry.depth (λ b. ⊤)) }
{
    // For its clause: the next number is bounded, so `number + 1` doesn't overflow.
    let _end = marked.table.next();
    let mut from = 0;
    while let Some(number) = marked.table.first_starting(from) {
        let found = first_in(alloc, marked, kept, number, room)?;
        if let Some(first) = found {
            *at = number;
            return Ok(Some(first));
        }
        from = number + 1;
    }
    Ok(None)
}

impl PartedFirsts {
    /// It keeps nothing. It takes no memory.
    pub fn new(alloc: Global) -> PartedFirsts
        ensures { (system : Whole) (m : Marking) (depth : ℕ) → IsKept system m depth result }
    {
        PartedFirsts {
            kept: None,
            room: Room::new(alloc),
            number: 0,
            count: 0,
            times: TIMES,
        }
    }

    /// It keeps nothing any more.
    pub fn forget(&mut self)
        ensures { (system : Whole) (m : Marking) (depth : ℕ) → IsKept system m depth self.new }
    {
        self.kept = None;
        self.count = 0;
    }

    // It keeps nothing for more looks than before, but for no more than what opening costs is
    // worth.
    fn rest_longer(&mut self, table: &Table)
        ensures { (system : Whole) (m : Marking) (depth : ℕ) → IsKept system m depth self.new }
    {
        self.forget();
        let most = (table.next() / LIGHT).saturating_add(LONGEST);
        self.times = self.times.saturating_mul(2).min(most);
    }

    // What is kept is brought to a table that differs at most in these instances, or given up.
    fn follow(&mut self, alloc: Global, marked: Marked<'_>, changed: &[u32])
        requires searched { IsSearchable marked.system.now marked.uplinks.now marked.table.now }
        requires before { (before : Marking)
            × IsKept marked.system.now before marked.depth self.old
            × DifferAtMostIn changed.now before marked.table.now.marking }
        ensures { IsKept marked.entry.system.now marked.entry.table.now.marking
            marked.entry.depth self.new }
    {
        let Some(kept) = &mut self.kept else {
            return;
        };
        match kept.follow(alloc, marked, changed, &mut self.room) {
            Ok(true) => self.times = self.times.saturating_sub(1).max(TIMES),
            Ok(false) => self.rest_longer(marked.table),
            Err(_) => self.rest_longer(marked.table),
        }
    }

    // The same, where it is known what changed, and else it keeps nothing.
    fn turn_to(&mut self, alloc: Global, marked: Marked<'_>, changed: Option<&[u32]>)
        requires searched { IsSearchable marked.system.now marked.uplinks.now marked.table.now }
        requires changed { MatchOption changed ⊤ (λ c. (before : Marking)
            × IsKept marked.system.now before marked.depth self.old
            × DifferAtMostIn c.now before marked.table.now.marking) }
        ensures { IsKept marked.entry.system.now marked.entry.table.now.marking
            marked.entry.depth self.new }
    {
        match changed {
            Some(changed) => self.follow(alloc, marked, changed),
            None => self.forget(),
        }
    }

    // Something is to be kept of an instance, where it can be.
    fn open(&mut self, alloc: Global, marked: Marked<'_>, number: u32)
        requires searched { IsSearchable marked.system.now marked.uplinks.now marked.table.now }
        ensures { IsKept marked.entry.system.now marked.entry.table.now.marking
            marked.entry.depth self.new }
    {
        match PartedFirst::open(alloc, marked, number, &mut self.room) {
            Ok(Some(kept)) => self.kept = Some(kept),
            Ok(None) => self.rest_longer(marked.table),
            Err(_) => self.rest_longer(marked.table),
        }
    }

    // A look found its first in an instance.
    fn note(&mut self, alloc: Global, marked: Marked<'_>, number: u32)
        requires searched { IsSearchable marked.system.now marked.uplinks.now marked.table.now }
        requires kept { IsKept marked.system.now marked.table.now.marking marked.depth self.old }
        ensures { IsKept marked.entry.system.now marked.entry.table.now.marking
            marked.entry.depth self.new }
    {
        if number != self.number {
            self.forget();
            self.number = number;
        }
        if self.kept.is_some() {
            return;
        }
        self.count = self.count.saturating_add(1);
        if self.count >= self.times {
            self.open(alloc, marked, number);
        }
    }

    /// The first of all bindings that are enabled at the table within the depth, by
    /// `compare_bindings`, or `None` exactly where there is none.
    ///
    /// The instances in which the table may differ from that of the last look are `changed`. With
    /// `None` it keeps nothing of it.
    pub fn look(
        &mut self,
        alloc: Global,
        system: &System,
        uplinks: &Uplinks,
        table: &Table,
        depth: u32,
        changed: Option<&[u32]>,
    ) -> Result<Option<Candidate>, NoMemory>
        requires good { Good system.now }
        requires own { AreUplinksOf system.now uplinks.now }
        requires table { IsTableOf system.now table.now }
        requires tokens { HasFitTokens system.now table.now.marking }
        requires changed { MatchOption changed ⊤ (λ c. (before : Marking)
            × IsKept system.now before depth self.old
            × DifferAtMostIn c.now before table.now.marking) }
        ensures least { IfOk result (λ found. IfSome found (λ b.
            Enabled system.now table.now.marking b depth
            × ((c : Binding) → Enabled system.now table.now.marking c depth →
            binding_cmp b c ≢ Greater))) }
        ensures none { IfOk result (λ found. IsNone found
            ↔ DeadAt system.now table.now.marking depth) }
        ensures known { IsKept system.now table.now.marking depth self.new }
    {
        // For its clauses: the numbers of the instances ascend, and are below the next one.
        let _end = table.next();
        let marked = Marked {
            system,
            uplinks,
            table,
            depth,
        };
        self.turn_to(alloc, marked, changed);
        let mut at = 0;
        let kept = self.kept.as_ref();
        let found = first_at(alloc, marked, kept, &mut self.room, &mut at)?;
        if found.is_some() {
            self.note(alloc, marked, at);
        }
        Ok(found)
    }
}
