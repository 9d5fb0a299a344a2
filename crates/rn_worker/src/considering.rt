//! What a worker does between its turns: it searches its snapshot.
ghost use Rattle.std.specs.Prelude.{◌≡◌, ◌↔◌, ◌<◌, ◌+◌, ◌^◌, ℕ, [], Some, IfOk, IfSome, IsNone};
ghost use Rattle.std.specs.Prelude.{MatchBool, MatchOption, false, true, is_some, length, min};
ghost use Rattle.rn_model.specs.Enabling.{DeadAt, Enabled};
ghost use Rattle.rn_model.specs.Markings.{Instance, instance_at};
ghost use Rattle.rn_worker.specs.Pacing.{AreAllDead, IsDue, last_count, met_by, paced};
ghost use Rattle.rn_firsts.specs.Resting.{KnowsIdle};
ghost use Rattle.rn_worker.specs.link.Plans.{AreDeadAt, DropsNone, IsPlanAt, IsToSearch, WasStopped};
ghost use Rattle.rn_worker.specs.link.Views.{FollowsIn};

use crate::looking::{Round, View};
use crate::pacing::Pace;
use crate::standby::Watch;
use crate::tally::{Done, Tally};
use crate::team::Task;
use rn_binding::Candidate;
use rn_choices::ToTheEnd;
use rn_finder::{Finding, Halt, Start};
use rn_firsts::KnownIdle;
use rn_items::NoMemory;
use rn_live::garbage;
use rn_model::System;
use rn_table::Table;
use rn_value::InstRef;
use std::alloc::Global;

/// What a worker found: a binding that was enabled, or `None` where none was; instances that weren't
/// live; and how many were, with their tokens, where it listed those.
#[derive(Drop)]
pub(crate) struct Plan {
    pub found: Option<Candidate>,
    pub dead: Vec<u32>,
    pub live: Option<u64>,
}

// One for an instance and one for each of its tokens.
fn size_of(table: &Table, n: u32) -> u64 {
    let mut size: u64 = 1;
    let Some(inst) = table.find(n) else {
        return size;
    };
    for place in 0..u32::MAX {
        let Some(bag) = inst.bag(place) else {
            break;
        };
        size = size.saturating_add(bag.len() as u64);
    }
    size
}

// How many of a table's instances are left without these, which ascend, and tokens with them.
fn size_without(table: &Table, dead: &[u32]) -> Result<u64, NoMemory> {
    let mut size: u64 = 0;
    let mut gone = 0;
    let all = table.instances()?;
    for n in all.as_slice() {
        if gone < dead.len() && dead[gone] == *n {
            gone += 1;
        } else {
            size = size.saturating_add(size_of(table, *n));
        }
    }
    Ok(size)
}

/// The seed of a run, if it has one.
#[derive(Clone, Copy)]
pub(crate) struct Seed {
    pub number: Option<u32>,
}

/// What a worker searches with: its searcher, and what that knows of idle instances.
#[derive(Drop)]
pub(crate) struct Searcher {
    pub finding: Finding,
    pub idle: KnownIdle,
}

/// Where a search ends early: where the watch says, unless it is to be made whole.
#[derive(Clone, Copy)]
pub(crate) struct SearchEnd<'a> {
    pub watch: &'a Watch<'a>,
    pub whole: bool,
}

/// The searcher of a worker, one of so many. With a seed it draws where it looks.
pub(crate) fn searcher_of(alloc: Global, worker: u32, workers: u32, seed: Seed) -> Searcher {
    let finding = match seed.number {
        Some(seed) => Finding::of_seed(alloc, worker, workers, seed),
        None => Finding::of_share(alloc, worker, workers),
    };
    let idle = KnownIdle::new(alloc);
    Searcher { finding, idle }
}

// The instances in which the table of a view may differ from that of the one before, where that is known.
fn changed_in(view: &View) -> Option<&[u32]>
    ensures { MatchOption view.now.changed (IsNone result)
        (λ changed. IfSome result (λ c. c.now ≡ changed.items)) }
{
    match &view.changed {
        Some(changed) => Some(changed.as_slice()),
        None => None,
    }
}

/// The instances of a table that aren't live, and how much is, where that is due.
pub fn listed_at(
    alloc: Global,
    system: &System,
    table: &Table,
    due: bool,
) -> Result<(Vec<u32>, Option<u64>), NoMemory>
    requires { (n : ℕ) (i : Instance) →
        instance_at table.now.marking n ≡ Some i → length i.places < 2 ^ 32 }
    ensures dead { IfOk result (λ r. AreDeadAt system.now table.now.marking r.0.items) }
    ensures none { IfOk result (λ r. due ≡ false → r.0.items ≡ []) }
    ensures all { IfOk result (λ r. due ≡ true →
        AreAllDead system.now table.now.marking r.0.items) }
    ensures met { IfOk result (λ r. is_some r.1 ≡ due) }
{
    if !due {
        return Ok((Vec::new(alloc), None));
    }
    let dead = garbage(alloc, system, table)?;
    let live = size_without(table, dead.as_slice())?;
    Ok((dead, Some(live)))
}

// Searches the table of a view, where the instances that are known to be idle are passed over.
fn find_at(
    alloc: Global,
    task: Task<'_>,
    searcher: &mut Searcher,
    view: &View,
    end: SearchEnd<'_>,
) -> Result<Option<Candidate>, Halt>
    requires table { IsToSearch task.system.now task.uplinks.now view.now.sight.table }
    requires follows { FollowsIn task.system.now task.options.now.depth searcher.old.idle view.now }
    ensures found { IfOk result (λ found. IfSome found (λ b. Enabled task.entry.system.now
        view.now.sight.table.marking b task.entry.options.now.depth)) }
    ensures none { IfOk result (λ found. IsNone found
        ↔ DeadAt task.entry.system.now view.now.sight.table.marking task.entry.options.now.depth) }
    ensures known { KnowsIdle task.entry.system.now view.now.sight.table.marking
        task.entry.options.now.depth searcher.new.idle }
    ensures whole { end.entry.whole ≡ true → ¬ WasStopped result }
{
    let Task {
        system,
        uplinks,
        options,
    } = task;
    let depth = options.depth;
    let changed = changed_in(view);
    let table = &view.sight.table;
    let finding = &mut searcher.finding;
    let idle = &mut searcher.idle;
    if !end.whole {
        return idle.find_while(
            alloc, end.watch, finding, system, uplinks, table, depth, changed,
        );
    }
    match idle.find_while(
        alloc, &ToTheEnd, finding, system, uplinks, table, depth, changed,
    ) {
        Ok(found) => Ok(found),
        Err(no_memory) => Err(Halt::NoMemory(no_memory)),
    }
}

/// Searches a snapshot, and lists what isn't live there where that is due by the pace.
pub(crate) fn plan_at(
    alloc: Global,
    task: Task<'_>,
    searcher: &mut Searcher,
    view: View,
    pace: Pace,
    end: SearchEnd<'_>,
) -> Result<Plan, Halt>
    requires table { IsToSearch task.system.now task.uplinks.now view.sight.table }
    requires follows { FollowsIn task.system.now task.options.now.depth searcher.old.idle view }
    ensures plan { IfOk result (IsPlanAt task.entry.system.now task.entry.options.now.depth
        view.sight.table) }
    ensures due { IsDue task.entry.options.now.sweep_every
        view.sight.table.marking.next pace
        → IfOk result (λ p. AreAllDead task.entry.system.now view.sight.table.marking p.dead.items
        × (is_some p.live ≡ true)) }
    ensures not_due { ¬ IsDue task.entry.options.now.sweep_every
        view.sight.table.marking.next pace
        → IfOk result (λ p. (p.dead.items ≡ []) × (is_some p.live ≡ false)) }
    ensures none { task.entry.options.now.sweep_every ≡ 0 → DropsNone result }
    ensures whole { end.entry.whole ≡ true → ¬ WasStopped result }
    ensures known { KnowsIdle task.entry.system.now view.sight.table.marking
        task.entry.options.now.depth searcher.new.idle }
{
    let due = pace.is_due(task.options.sweep_every, view.sight.table.next());
    let found = find_at(alloc, task, searcher, &view, end)?;
    let (dead, live) = listed_at(alloc, task.system, &view.sight.table, due)?;
    Ok(Plan { found, dead, live })
}

/// Whether the search was stopped.
pub(crate) fn was_stopped(plan: &Result<Plan, Halt>) -> bool
    ensures yes { result ≡ true → WasStopped plan.now }
    ensures no { result ≡ false → ¬ WasStopped plan.now }
{
    matches!(plan, Err(Halt::Stopped))
}

/// How many instances and tokens were live, where a worker listed the instances that weren't.
pub(crate) fn live_then(plan: &Result<Plan, Halt>) -> Option<u64>
    ensures { result ≡ met_by plan.now }
{
    match plan {
        Ok(plan) => plan.live,
        Err(_) => None,
    }
}

/// Counts a round: what was done in its turn, and how often the worker fired since it last listed
/// anything.
pub(crate) fn count_round(tally: &mut Tally, pace: &mut Pace, plan: &Result<Plan, Halt>, done: Done)
    requires { tally.old.fired + 1 < 2 ^ 64 }
    ensures worker { tally.new.worker ≡ tally.old.worker }
    ensures fired { MatchBool done.fired (tally.new.fired ≡ tally.old.fired + 1)
        (tally.new.fired ≡ tally.old.fired) }
    ensures none { tally.old.swept ≡ 0 → done.swept ≡ 0 → tally.new.swept ≡ 0 }
    ensures swept { tally.new.swept ≡ min (tally.old.swept + done.swept) last_count }
    ensures pace { pace.new ≡ paced pace.old (met_by plan.now) done.fired }
{
    tally.count(done);
    *pace = pace.after(live_then(plan), done.fired);
}

// A number of a worker's own after so many entries, below 2^24.
fn mixed(worker: u32, seen: u64) -> u32 {
    let mixed = (worker as u64)
        .wrapping_mul(11400714819323198485)
        .wrapping_add(seen.wrapping_mul(15111042398283466643));
    (mixed / 1048576 % 16777216) as u32
}

// Another instance, drawn by a number, where several were made: the next one gets a number.
fn beside(number: u32, next: u32, drawn: u32) -> u32 {
    if next <= 2 {
        return number;
    }
    let steps = 1 + drawn % (next - 1);
    ((number as u64 + steps as u64) % next as u64) as u32
}

/// Where a worker goes on that found something and came too late: with the same transition at other
/// tokens, and at another instance where several were made. After each second time in a row with the
/// next transition, since perhaps there is one token that all want.
pub(crate) fn start_beside(round: Round, late: u64, plan: &Result<Plan, Halt>) -> Option<Start> {
    let Ok(plan) = plan else {
        return None;
    };
    let Some(candidate) = &plan.found else {
        return None;
    };
    let node = candidate.binding().nodes.as_slice().first()?;
    let InstRef::Old(number) = node.inst else {
        return None;
    };
    let drawn = mixed(round.worker, round.looked);
    Some(Start {
        number: beside(number, round.next, drawn),
        transition: node.transition.wrapping_add((late / 2 % 16777216) as u32),
        token: drawn as usize,
    })
}

/// Where a worker found something and came too late, its searcher goes on where it is told, and else
/// where it would.
pub(crate) fn go_beside(finding: &mut Finding, fired: bool, beside: Option<Start>) {
    if fired {
        return;
    }
    if let Some(start) = beside {
        finding.go_beside(start);
    }
}

/// After a worker stood by, its searcher goes on with its own share of all instances that were made by
/// then.
pub(crate) fn go_on_after(finding: &mut Finding, rests: bool, worker: u32, next: u32) {
    if rests {
        finding.go_among(worker, next);
    }
}

/// How often in a row a worker fired nothing.
pub(crate) fn late_after(late: u64, fired: bool) -> u64 {
    if fired { 0 } else { late.saturating_add(1) }
}
