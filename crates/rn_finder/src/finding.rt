//! Finding one binding that is enabled. A searcher explores, looks at its guest, and then goes
//! round all starts from home that aren't known to be idle. Only this last round says that a
//! marking is dead, since all that comes before it has a limit of cost (`docs/SEARCH.md`, 'Everyone
//! gets a turn').
ghost use Rattle.std.specs.Prelude.{◌≡◌, ◌↔◌, ◌<◌, ◌≤◌, ℕ, IfOk, IfSome, IfNone, IsNone, None, Some, Contains, length};
ghost use Rattle.rn_model.specs.Systems.{net_at, transition_at};
ghost use Rattle.rn_model.specs.Good.{Good};
ghost use Rattle.rn_model.specs.Enabling.{Enabled, DeadAt};
ghost use Rattle.rn_search.specs.Problems.{HasFitTokens};
ghost use Rattle.rn_channel.specs.link.Uplinks.{AreUplinksOf};
ghost use Rattle.rn_table.specs.Tables.{IsTableOf};
ghost use Rattle.rn_finder.specs.Idle.{AreIdle};
ghost use Rattle.rn_finder.specs.Starting.{AreNoStartsBetween, IsKept, IsNoStart, IsNoStartIn};
ghost use Rattle.rn_finder.specs.Starting.{IsSearchable, start_of};

use crate::drawing::Draws;
use crate::exploring::{explore, visit};
use crate::hint::{Hint, KeptStart, Start};
use crate::idle::Idle;
use crate::marked::{Marked, problem_at};
use crate::room::Room;
use crate::starts::{cost_of, may_start, starts_none, transition_count};
use crate::turns::Turns;
use rn_binding::Candidate;
use rn_channel::Uplinks;
use rn_choices::{Asked, Flag, Halt, ToTheEnd};
use rn_model::System;
use rn_table::Table;
use rn_value::NoMemory;
use std::alloc::Global;

/// A searcher that searches again and again: it keeps its room, and where it goes on.
#[derive(Drop)]
pub struct Finding {
    room: Room,
    turns: Turns,
}

/// Some numbers of instances: from one on, and below another.
#[derive(Clone, Copy)]
struct Numbers {
    from: u32,
    end: u32,
}

/// A binding with this start, where a firing may start by it. The hint says with which tokens
/// choices begin.
pub(crate) fn find_from<A: Asked>(
    alloc: Global,
    asked: &A,
    marked: Marked<'_>,
    room: &mut Room,
    start: KeptStart<'_>,
) -> Result<Option<Candidate>, A::Halt>
    requires searched { IsSearchable marked.system.now marked.uplinks.now
        marked.table.now }
    requires kept { IsKept marked.table.now.marking start.inst.now }
    requires there { start.transition
        < length (net_at marked.system.now start.inst.now.net).transitions }
    ensures found { IfOk result (λ found. IfSome found (λ b. Enabled marked.entry.system.now
        marked.entry.table.now.marking b marked.entry.depth)) }
    ensures none { IfOk result (λ found. IfNone found (IsNoStart marked.entry.system.now
        marked.entry.table.now.marking marked.entry.depth
        (start_of start.entry.inst.now.number start.entry.inst.now.net start.entry.transition))) }
{
    if !may_start(marked.system, start.inst, start.transition) {
        room.pass();
        return Ok(None);
    }
    search_from(alloc, asked, marked, room, start)
}

// The same, where that is so. It stands alone since a search has much to lay out, which a start that
// is passed by shall not pay for.
fn search_from<A: Asked>(
    alloc: Global,
    asked: &A,
    marked: Marked<'_>,
    room: &mut Room,
    start: KeptStart<'_>,
) -> Result<Option<Candidate>, A::Halt>
    requires searched { IsSearchable marked.system.now marked.uplinks.now
        marked.table.now }
    requires kept { IsKept marked.table.now.marking start.inst.now }
    requires there { start.transition
        < length (net_at marked.system.now start.inst.now.net).transitions }
    requires uplink { (transition_at marked.system.now start.inst.now.net start.transition).uplink
        ≡ None }
    ensures found { IfOk result (λ found. IfSome found (λ b. Enabled marked.entry.system.now
        marked.entry.table.now.marking b marked.entry.depth)) }
    ensures none { IfOk result (λ found. IfNone found (IsNoStart marked.entry.system.now
        marked.entry.table.now.marking marked.entry.depth
        (start_of start.entry.inst.now.number start.entry.inst.now.net start.entry.transition))) }
{
    let inst = start.inst;
    room.choices
        .spend(cost_of(marked.system, inst, start.transition));
    room.choices.set_lag(start.hint.lap);
    let problem = problem_at(alloc, marked, inst.number(), inst.net(), start.transition)?;
    let mut branch = room.open(alloc, marked.system, start.hint.token);
    let found = rn_choices::find_while(alloc, &problem, &mut branch, &mut room.choices, asked);
    room.branch = branch.into_room();
    found
}

// A binding that starts with an instance, by a transition from that of this start on and before
// another.
fn find_among<A: Asked>(
    alloc: Global,
    asked: &A,
    marked: Marked<'_>,
    room: &mut Room,
    first: KeptStart<'_>,
    to: u32,
) -> Result<Option<(u32, Candidate)>, A::Halt>
    requires searched { IsSearchable marked.system.now marked.uplinks.now
        marked.table.now }
    requires kept { IsKept marked.table.now.marking first.inst.now }
    requires within { to ≤ length (net_at marked.system.now first.inst.now.net).transitions }
    ensures found { IfOk result (λ found. IfSome found (λ f. Enabled marked.entry.system.now
        marked.entry.table.now.marking f.1 marked.entry.depth)) }
    ensures none { IfOk result (λ found. IfNone found ((t : ℕ) →
        first.entry.transition ≤ t → t < to →
        IsNoStart marked.entry.system.now marked.entry.table.now.marking marked.entry.depth
        (start_of first.entry.inst.now.number first.entry.inst.now.net t))) }
{
    for t in first.transition..to {
        let start = KeptStart {
            transition: t,
            ..first
        };
        if let Some(found) = find_from(alloc, asked, marked, room, start)? {
            return Ok(Some((t, found)));
        }
    }
    Ok(None)
}

// A binding that starts with an instance, by the transitions from the one on that the hint says,
// round. It asks first whether the search goes on, since starts may be passed by.
fn find_at<A: Asked>(
    alloc: Global,
    asked: &A,
    marked: Marked<'_>,
    room: &mut Room,
    number: u32,
    hint: Hint,
) -> Result<Option<(u32, Candidate)>, A::Halt>
    requires { IsSearchable marked.system.now marked.uplinks.now
        marked.table.now }
    ensures found { IfOk result (λ found. IfSome found (λ f. Enabled marked.entry.system.now
        marked.entry.table.now.marking f.1 marked.entry.depth)) }
    ensures none { IfOk result (λ found. IfNone found (IsNoStartIn marked.entry.system.now
        marked.entry.table.now.marking marked.entry.depth number)) }
{
    asked.go_on(room.choices.spent())?;
    let Some(inst) = marked.table.find(number) else {
        return Ok(None);
    };
    let count = transition_count(marked.system, inst.net());
    if starts_none(marked.system, inst) {
        room.pass_all(count);
        return Ok(None);
    }
    let first = hint.first_of(number).min(count);
    let from_first = KeptStart {
        inst,
        transition: first,
        hint,
    };
    if let Some(found) = find_among(alloc, asked, marked, room, from_first, count)? {
        return Ok(Some(found));
    }
    let from_zero = KeptStart {
        transition: 0,
        ..from_first
    };
    let found = find_among(alloc, asked, marked, room, from_zero, first)?;
    Ok(found)
}

// The first instance from a number on from which a firing may start and of which it isn't known that
// nothing starts in it. Those before it from which no firing may start become known.
fn next_start(marked: Marked<'_>, idle: &mut Idle, from: u32) -> Option<u32>
    requires searched { IsSearchable marked.system.now marked.uplinks.now
        marked.table.now }
    requires idle { AreIdle marked.system.now marked.table.now.marking marked.depth idle.old }
    ensures some { IfSome result (λ number. (from ≤ number)
        × AreNoStartsBetween marked.entry.system.now marked.entry.table.now
        marked.entry.depth from number) }
    ensures none { IfNone result ((number : ℕ) → from ≤ number →
        Contains marked.entry.table.now.starting number →
        IsNoStartIn marked.entry.system.now marked.entry.table.now.marking
        marked.entry.depth number) }
    ensures idle { AreIdle marked.entry.system.now marked.entry.table.now.marking
        marked.entry.depth idle.new }
{
    let mut next = from;
    while let Some(start) = marked.table.first_starting(next) {
        idle.add_unless(next, start);
        let other = idle.first_other(start);
        if other == start {
            return Some(start);
        }
        idle.pass(other - start);
        next = other;
    }
    None
}

impl Finding {
    /// It begins where the number says, and has no room yet.
    pub fn new(alloc: Global, start: u64) -> Finding {
        Finding {
            room: Room::new(alloc),
            turns: Turns::new(Hint::of(start), start % 1048576),
        }
    }

    /// One of so many searchers, of a number from 1 on: it begins with its own share of the tokens.
    pub fn of_share(alloc: Global, number: u32, count: u32) -> Finding {
        Finding {
            room: Room::new(alloc),
            turns: Turns::new(
                Hint::of_share(number, count),
                (number as u64).wrapping_mul(1048576),
            ),
        }
    }

    /// The same with a seed: where it looks beside that is drawn, by the seed and its number.
    pub fn of_seed(alloc: Global, number: u32, count: u32, seed: u32) -> Finding {
        Finding {
            room: Room::new(alloc),
            turns: Turns::drawing(Hint::of_share(number, count), Draws::new(seed, number)),
        }
    }

    /// As the searcher of a number from 1 on it goes on with its own share of so many instances and of
    /// the tokens, beside those of the numbers before it.
    pub fn go_among(&mut self, number: u32, instances: u32) {
        self.turns.go_to(Hint::among(number, instances));
    }

    /// What its searches have cost: their steps, the alternatives that they tried, and the starts that
    /// they looked at.
    pub fn spent(&self) -> u64 {
        self.room.choices.spent()
    }

    /// The same in steps, of which one takes about as long as eight starts that are passed by.
    pub fn effort(&self) -> u64 {
        self.spent()
            .wrapping_sub(self.room.passed)
            .wrapping_add(self.room.passed / 8)
    }

    /// What it found last came too late to fire. So it doesn't go on there: where it had found that
    /// beside home, it goes on at home, and else at this start.
    pub fn go_beside(&mut self, start: Start) {
        self.turns.go_beside(start);
    }

    // A binding that starts with an instance of one of these numbers. Those that are known to be
    // idle are passed over, and those that are looked at in vain become known.
    fn find_between<A: Asked>(
        &mut self,
        alloc: Global,
        asked: &A,
        marked: Marked<'_>,
        idle: &mut Idle,
        numbers: Numbers,
    ) -> Result<Option<Candidate>, A::Halt>
        requires searched { IsSearchable marked.system.now marked.uplinks.now
            marked.table.now }
        requires idle { AreIdle marked.system.now marked.table.now.marking marked.depth idle.old }
        ensures found { IfOk result (λ found. IfSome found (λ b. Enabled marked.entry.system.now
            marked.entry.table.now.marking b marked.entry.depth)) }
        ensures none { IfOk result (λ found. IfNone found (AreNoStartsBetween
            marked.entry.system.now marked.entry.table.now marked.entry.depth
            numbers.from numbers.end)) }
        ensures idle { AreIdle marked.entry.system.now marked.entry.table.now.marking
            marked.entry.depth idle.new }
    {
        let mut next = numbers.from;
        while let Some(number) = next_start(marked, idle, next) {
            if number >= numbers.end {
                return Ok(None);
            }
            let hint = self.turns.home;
            let found = find_at(alloc, asked, marked, &mut self.room, number, hint)?;
            if let Some((transition, found)) = found {
                self.turns
                    .settle(number, transition, self.room.choices.oldest());
                return Ok(Some(found));
            }
            idle.add(number);
            next = number + 1;
        }
        Ok(None)
    }

    // A binding that is enabled, or `None` exactly where none is within the depth: it goes round all
    // starts that aren't known to be idle, from home.
    fn find_round<A: Asked>(
        &mut self,
        alloc: Global,
        asked: &A,
        marked: Marked<'_>,
        idle: &mut Idle,
    ) -> Result<Option<Candidate>, A::Halt>
        requires searched { IsSearchable marked.system.now marked.uplinks.now
            marked.table.now }
        requires idle { AreIdle marked.system.now marked.table.now.marking marked.depth idle.old }
        ensures found { IfOk result (λ found. IfSome found (λ b. Enabled marked.entry.system.now
            marked.entry.table.now.marking b marked.entry.depth)) }
        ensures none { IfOk result (λ found. IsNone found
            ↔ DeadAt marked.entry.system.now marked.entry.table.now.marking marked.entry.depth) }
        ensures idle { AreIdle marked.entry.system.now marked.entry.table.now.marking
            marked.entry.depth idle.new }
    {
        let home = self.turns.home.number;
        let end = marked.table.next();
        let from_home = Numbers { from: home, end };
        if let Some(found) = self.find_between(alloc, asked, marked, idle, from_home)? {
            return Ok(Some(found));
        }
        let before_home = Numbers { from: 0, end: home };
        let found = self.find_between(alloc, asked, marked, idle, before_home)?;
        Ok(found)
    }

    /// A binding that is enabled, or `None` exactly where none is within the depth. Before each step,
    /// and before each start, it asks whether it goes on; where it doesn't, that says nothing of bindings.
    /// The searcher may be used again.
    ///
    /// Instances that are known to be idle at this table are passed over, and those that it looks at in
    /// vain become known, however the search ends.
    pub fn find_beside<A: Asked>(
        &mut self,
        alloc: Global,
        asked: &A,
        system: &System,
        uplinks: &Uplinks,
        table: &Table,
        depth: u32,
        idle: &mut Idle,
    ) -> Result<Option<Candidate>, A::Halt>
        requires good { Good system.now }
        requires own { AreUplinksOf system.now uplinks.now }
        requires table { IsTableOf system.now table.now }
        requires tokens { HasFitTokens system.now table.now.marking }
        requires idle { AreIdle system.now table.now.marking depth idle.old }
        ensures found { IfOk result (λ found. IfSome found
            (λ b. Enabled system.now table.now.marking b depth)) }
        ensures none { IfOk result (λ found. IsNone found
            ↔ DeadAt system.now table.now.marking depth) }
        ensures idle { AreIdle system.now table.now.marking depth idle.new }
    {
        let marked = Marked {
            system,
            uplinks,
            table,
            depth,
        };
        // For its clauses: the numbers of the instances ascend, and are below the next one.
        let _end = table.next();
        if let Some(found) = explore(alloc, asked, marked, idle, &mut self.room, &mut self.turns)? {
            return Ok(Some(found));
        }
        if let Some(found) = visit(alloc, asked, marked, &mut self.room, &mut self.turns)? {
            return Ok(Some(found));
        }
        let before = self.room.choices.spent();
        let found = self.find_round(alloc, asked, marked, idle)?;
        let cost = self.room.choices.spent().wrapping_sub(before);
        self.turns.explorer.earn_at_home(cost);
        Ok(found)
    }

    /// The same, where of no instance it is known that it is idle.
    pub fn find_while<A: Asked>(
        &mut self,
        alloc: Global,
        asked: &A,
        system: &System,
        uplinks: &Uplinks,
        table: &Table,
        depth: u32,
    ) -> Result<Option<Candidate>, A::Halt>
        requires good { Good system.now }
        requires own { AreUplinksOf system.now uplinks.now }
        requires table { IsTableOf system.now table.now }
        requires tokens { HasFitTokens system.now table.now.marking }
        ensures found { IfOk result (λ found. IfSome found
            (λ b. Enabled system.now table.now.marking b depth)) }
        ensures none { IfOk result (λ found. IsNone found
            ↔ DeadAt system.now table.now.marking depth) }
    {
        let mut idle = Idle::new(alloc);
        self.find_beside(alloc, asked, system, uplinks, table, depth, &mut idle)
    }

    /// A binding that is enabled, or `None` exactly where none is within the depth.
    pub fn find(
        &mut self,
        alloc: Global,
        system: &System,
        uplinks: &Uplinks,
        table: &Table,
        depth: u32,
    ) -> Result<Option<Candidate>, NoMemory>
        requires good { Good system.now }
        requires own { AreUplinksOf system.now uplinks.now }
        requires table { IsTableOf system.now table.now }
        requires tokens { HasFitTokens system.now table.now.marking }
        ensures found { IfOk result (λ found. IfSome found
            (λ b. Enabled system.now table.now.marking b depth)) }
        ensures none { IfOk result (λ found. IsNone found
            ↔ DeadAt system.now table.now.marking depth) }
    {
        self.find_while(alloc, &ToTheEnd, system, uplinks, table, depth)
    }

    /// The same, unless the flag stops it: where a search finds it raised, that says nothing of
    /// bindings. The searcher may be used again.
    pub fn find_unless(
        &mut self,
        alloc: Global,
        stop: &Flag,
        system: &System,
        uplinks: &Uplinks,
        table: &Table,
        depth: u32,
    ) -> Result<Option<Candidate>, Halt>
        requires good { Good system.now }
        requires own { AreUplinksOf system.now uplinks.now }
        requires table { IsTableOf system.now table.now }
        requires tokens { HasFitTokens system.now table.now.marking }
        ensures found { IfOk result (λ found. IfSome found
            (λ b. Enabled system.now table.now.marking b depth)) }
        ensures none { IfOk result (λ found. IsNone found
            ↔ DeadAt system.now table.now.marking depth) }
    {
        self.find_while(alloc, stop, system, uplinks, table, depth)
    }
}

/// A binding that is enabled at the table within the depth, or `None` exactly where there is none.
/// `start` may change which one is found, and nothing else.
pub fn find(
    alloc: Global,
    system: &System,
    uplinks: &Uplinks,
    table: &Table,
    depth: u32,
    start: u64,
) -> Result<Option<Candidate>, NoMemory>
    requires good { Good system.now }
    requires own { AreUplinksOf system.now uplinks.now }
    requires table { IsTableOf system.now table.now }
    requires tokens { HasFitTokens system.now table.now.marking }
    ensures found { IfOk result (λ found. IfSome found
        (λ b. Enabled system.now table.now.marking b depth)) }
    ensures none { IfOk result (λ found. IsNone found
        ↔ DeadAt system.now table.now.marking depth) }
{
    let mut finding = Finding::new(alloc, start);
    finding.find(alloc, system, uplinks, table, depth)
}
