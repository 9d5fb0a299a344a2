//! A worker's turn: it commits what it found, and looks again.
ghost use Rattle.std.specs.Prelude.{◌≡◌, ◌≤◌, ◌<◌, [], None, false, IfOk, IfSome, length};
ghost use Rattle.rn_model.specs.Limits.{most_workers};
ghost use Rattle.rn_desk.specs.Entries.{StartsWith};
ghost use Rattle.rn_desk.specs.Passes.{fixed_of, number, seen, mine, IsOf, HasNoTurn};
ghost use Rattle.rn_fire.specs.Ends.{MayGoOn};
ghost use Rattle.rn_fire.specs.States.{logged};
ghost use Rattle.rn_worker.specs.link.Seen.{KeepsLog, IsUnended, marking_after};
ghost use Rattle.rn_worker.specs.link.Views.{ChangedBetween, ShowsView};
ghost use Rattle.rn_worker.specs.Pacing.{DoesFiring, DropsListed, DropsThenFires, IsSwept};
ghost use Rattle.rn_worker.specs.Pacing.{dropped_by, kept_among};
ghost use Rattle.rn_worker.specs.link.Plans.{AddsOwn, DropsNone, FitsIn, GrowsBy, HasNoneLive, Knows, WasFound, WasStopped};

use crate::considering::Plan;
use crate::looking::{Round, View, view_below};
use crate::tally::Done;
use crate::team::Team;
use rn_desk::{Kept, Pass};
use rn_finder::Halt;
use rn_fire::{Commit, SimState};
use rn_table::Table;
use std::alloc::Global;
use std::sync::Wait;

/// What came of a turn: what the worker did, and what it saw then, where it looked.
#[derive(Drop)]
pub(crate) struct TurnOutcome {
    pub done: Done,
    pub view: Option<View>,
}

/// How many of these instances are kept.
pub fn count_kept(table: &Table, numbers: &[u32]) -> u64
    ensures few { result ≤ length numbers.now }
    ensures exact { result ≡ kept_among numbers.now table.now.marking }
{
    let mut count = 0;
    for number in numbers {
        if table.net_of(*number).is_some() {
            count += 1;
        }
    }
    count
}

// Drops instances that aren't live, and returns how many of them were kept.
fn drop_listed(state: &mut SimState, numbers: &[u32]) -> u64
    requires { HasNoneLive state.old numbers.now }
    ensures kept { KeepsLog state.old state.new }
    ensures none { numbers.now ≡ [] → result ≡ 0 }
    ensures swept { IsSwept numbers.now state.old state.new }
    ensures count { result ≡ kept_among numbers.now state.old.table.marking }
{
    let count = count_kept(state.table(), numbers);
    state.sweep(numbers);
    count
}

// Drops what was listed, if anything was, and returns how many instances that were.
fn drop_planned(state: &mut SimState, plan: &Result<Plan, Halt>) -> u64
    requires { IfOk plan.now (λ p. HasNoneLive state.old p.dead.items) }
    ensures kept { KeepsLog state.old state.new }
    ensures none { DropsNone plan.now → result ≡ 0 }
    ensures swept { DropsListed plan.now state.old state.new }
    ensures count { result ≡ dropped_by plan.now state.old.table.marking }
{
    match plan {
        Ok(plan) => drop_listed(state, plan.dead.as_slice()),
        Err(_) => 0,
    }
}

// Commits what was found, or that nothing was. Returns whether a firing was added. Without memory
// the log ends.
fn commit_plan(alloc: Global, state: &mut SimState, worker: u32, seen: u64, plan: &Plan) -> bool
    requires worker { (1 ≤ worker) × (worker ≤ most_workers) }
    requires going { state.old.ended ≡ None }
    requires below { MayGoOn state.old }
    requires found { WasFound state.old seen plan.now.found }
    ensures added { AddsOwn worker result state.old state.new }
    ensures later { seen < length (logged state.new) }
    ensures table { DoesFiring result state.old state.new }
{
    let Some(candidate) = &plan.found else {
        state.commit_none(seen);
        return false;
    };
    match state.commit(alloc, worker, candidate, seen) {
        Commit::Fired { step: _ } => true,
        Commit::NoMemory(no_memory) => {
            state.end_memory(no_memory);
            false
        }
        _ => false,
    }
}

// Commits what was found, where the log hasn't ended. Of a search that was stopped nothing is known, and
// all stays but for an end at the step limit. Returns whether a firing was added.
fn commit_planned(
    alloc: Global,
    state: &mut SimState,
    worker: u32,
    seen: u64,
    plan: &Result<Plan, Halt>,
) -> bool
    requires worker { (1 ≤ worker) × (worker ≤ most_workers) }
    requires seen { seen ≤ length state.old.fired }
    requires plan { IfOk plan.now (λ p. WasFound state.old seen p.found) }
    ensures added { AddsOwn worker result state.old state.new }
    ensures later { seen ≤ length (logged state.new) }
    ensures more { ¬ WasStopped plan.now → seen < length (logged state.new) }
    ensures stopped { WasStopped plan.now → result ≡ false }
    ensures table { DoesFiring result state.old state.new }
{
    state.end_steps();
    if state.has_ended() {
        return false;
    }
    match plan {
        Ok(plan) => commit_plan(alloc, state, worker, seen, plan),
        Err(Halt::NoMemory(no_memory)) => {
            state.end_memory(*no_memory);
            false
        }
        Err(Halt::Stopped) => false,
    }
}

// Drops what was listed, and commits what was found, where the log hasn't ended.
fn act_on(
    alloc: Global,
    state: &mut SimState,
    worker: u32,
    seen: u64,
    plan: &Result<Plan, Halt>,
) -> Done
    requires worker { (1 ≤ worker) × (worker ≤ most_workers) }
    requires seen { seen ≤ length state.old.fired }
    requires plan { IfOk plan.now (FitsIn state.old seen) }
    ensures added { AddsOwn worker result.fired state.old state.new }
    ensures later { seen ≤ length (logged state.new) }
    ensures more { ¬ WasStopped plan.now → seen < length (logged state.new) }
    ensures stopped { WasStopped plan.now → result.fired ≡ false }
    ensures swept { DropsNone plan.now → result.swept ≡ 0 }
    ensures count { result.swept ≡ dropped_by plan.now state.old.table.marking }
    ensures dropped { DropsThenFires plan.now result.fired state.old state.new }
{
    let swept = drop_planned(state, plan);
    let fired = commit_planned(alloc, state, worker, seen, plan);
    Done { fired, swept }
}

/// Takes a turn and acts. Where the log then goes on below the step limit, and there is memory for it,
/// it takes the next snapshot too.
pub(crate) fn act<R: Wait>(
    rt: &R,
    alloc: Global,
    team: Team<'_>,
    pass: &mut Pass<SimState>,
    round: Round,
    plan: &Result<Plan, Halt>,
) -> TurnOutcome
    requires here { IsOf ⟦<SimState as Kept>⟧.fixed team.desk.now pass.old }
    requires free { HasNoTurn pass.old }
    requires worker { (1 ≤ round.worker) × (round.worker ≤ most_workers) }
    requires number { number pass.old ≡ round.worker }
    requires going { IsUnended (seen pass.old) }
    requires looked { round.looked ≡ length (seen pass.old) }
    requires next { round.next ≡ (marking_after (fixed_of ⟦<SimState as Kept>⟧.fixed team.desk.now)
        (seen pass.old)).next }
    requires knows { IfOk plan.now (Knows (fixed_of ⟦<SimState as Kept>⟧.fixed team.desk.now)
        (seen pass.old)) }

    // The pass.
    ensures here { IsOf ⟦<SimState as Kept>⟧.fixed team.entry.desk.now pass.new }
    ensures free { HasNoTurn pass.new }
    ensures number { number pass.new ≡ number pass.old }
    ensures later { length (seen pass.old) ≤ length (seen pass.new) }
    ensures more { ¬ WasStopped plan.now → length (seen pass.old) < length (seen pass.new) }

    // What it did.
    ensures mine { GrowsBy result.done.fired (mine pass.old) (mine pass.new) }
    ensures stopped { WasStopped plan.now → result.done.fired ≡ false }
    ensures swept { DropsNone plan.now → result.done.swept ≡ 0 }

    ensures entries { StartsWith (seen pass.new) (seen pass.old) }

    // What it saw then.
    ensures some { IfSome result.view (ShowsView
        (fixed_of ⟦<SimState as Kept>⟧.fixed team.entry.desk.now) (seen pass.new)) }
    ensures below { IfSome result.view (λ v. v.sight.seen < team.entry.task.options.now.steps) }
    ensures changed { IfSome result.view (ChangedBetween
        (fixed_of ⟦<SimState as Kept>⟧.fixed team.entry.desk.now) (seen pass.old) (seen pass.new)) }
{
    let mut turn = team.desk.take(rt, pass);
    let state = turn.state();
    // For its clause: it is a state of a run (`IsState`).
    let _length = state.length();
    let done = act_on(alloc, state, round.worker, round.looked, plan);
    let steps = team.task.options.steps;
    let view = view_below(alloc, state, steps, round.looked, round.next);
    team.desk.give(pass, turn);
    TurnOutcome { done, view }
}
