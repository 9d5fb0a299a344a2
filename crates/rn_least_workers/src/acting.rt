//! A worker's turn: it commits what it found, and looks again.
ghost use Rattle.std.specs.Prelude.{◌≡◌, ◌≤◌, ◌<◌, [], None, false, IfOk, IfSome, length};
ghost use Rattle.rn_model.specs.Limits.{most_workers};
ghost use Rattle.rn_desk.specs.Passes.{fixed_of, number, seen, mine, IsOf, HasNoTurn};
ghost use Rattle.rn_fire.specs.Ends.{MayGoOn};
ghost use Rattle.rn_fire.specs.States.{logged};
ghost use Rattle.rn_worker.specs.link.Seen.{KeepsLog, IsUnended, marking_after};
ghost use Rattle.rn_worker.specs.link.Plans.{AddsOwn, GrowsBy, HasNoneLive};
ghost use Rattle.rn_desk.specs.Entries.{StartsWith};
ghost use Rattle.rn_least_workers.specs.link.LeastPlans.{DropsNone, FitsIn, Knows, WasFound};
ghost use Rattle.rn_worker.specs.link.Views.{ChangedBetween, ShowsView};

use crate::considering::LeastPlan;
use crate::team::LeastTeam;
use rn_desk::{Kept, Pass};
use rn_items::NoMemory;
use rn_least_state::{CommitAt, LeastState};
use rn_worker::{Done, Round, View, count_kept, view_below};
use std::alloc::Global;
use std::sync::Wait;

/// What came of a turn: what the worker did, and what it saw then, where it looked.
#[derive(Drop)]
pub(crate) struct TurnOutcome {
    pub done: Done,
    pub view: Option<View>,
}

// Drops instances that aren't live, and returns how many of them were kept.
fn drop_listed(state: &mut LeastState, numbers: &[u32]) -> u64
    requires { HasNoneLive state.old numbers.now }
    ensures kept { KeepsLog state.old state.new }
    ensures none { numbers.now ≡ [] → result ≡ 0 }
{
    if numbers.is_empty() {
        return 0;
    }
    let count = count_kept(state.base().table(), numbers);
    state.sweep(numbers);
    count
}

// Commits what was found, or that nothing was. Returns whether a firing was added. Without memory
// the log ends.
fn commit_plan(
    alloc: Global,
    state: &mut LeastState,
    worker: u32,
    seen: u64,
    plan: &LeastPlan,
) -> bool
    requires worker { (1 ≤ worker) × (worker ≤ most_workers) }
    requires going { state.old.ended ≡ None }
    requires below { MayGoOn state.old }
    requires found { WasFound state.old seen plan.now.found }
    ensures added { AddsOwn worker result state.old state.new }
    ensures later { seen < length (logged state.new) }
{
    let Some(candidate) = &plan.found else {
        state.commit_none(seen);
        return false;
    };
    match state.commit_at(alloc, worker, candidate, seen) {
        CommitAt::Fired { step: _ } => true,
        CommitAt::NoMemory(no_memory) => {
            state.end_memory(no_memory);
            false
        }
        _ => false,
    }
}

// Drops what was listed, and commits what was found, where the log hasn't ended.
fn act_on(
    alloc: Global,
    state: &mut LeastState,
    worker: u32,
    seen: u64,
    plan: &Result<LeastPlan, NoMemory>,
) -> Done
    requires worker { (1 ≤ worker) × (worker ≤ most_workers) }
    requires seen { seen ≤ length state.old.fired }
    requires plan { IfOk plan.now (FitsIn state.old seen) }
    ensures added { AddsOwn worker result.fired state.old state.new }
    ensures more { seen < length (logged state.new) }
    ensures swept { DropsNone plan.now → result.swept ≡ 0 }
{
    let swept = match plan {
        Ok(plan) => drop_listed(state, plan.dead.as_slice()),
        Err(_) => 0,
    };
    state.end_steps();
    if state.base().has_ended() {
        return Done {
            fired: false,
            swept,
        };
    }
    let fired = match plan {
        Ok(plan) => commit_plan(alloc, state, worker, seen, plan),
        Err(no_memory) => {
            state.end_memory(*no_memory);
            false
        }
    };
    Done { fired, swept }
}

/// Takes a turn and acts. Where the log then goes on below the step limit, and there is memory for it,
/// it takes the next snapshot too.
pub(crate) fn act<R: Wait>(
    rt: &R,
    alloc: Global,
    team: LeastTeam<'_>,
    pass: &mut Pass<LeastState>,
    round: Round,
    plan: &Result<LeastPlan, NoMemory>,
) -> TurnOutcome
    requires here { IsOf ⟦<LeastState as Kept>⟧.fixed team.desk.now pass.old }
    requires free { HasNoTurn pass.old }
    requires worker { (1 ≤ round.worker) × (round.worker ≤ most_workers) }
    requires number { number pass.old ≡ round.worker }
    requires going { IsUnended (seen pass.old) }
    requires looked { round.looked ≡ length (seen pass.old) }
    requires next { round.next ≡ (marking_after
        (fixed_of ⟦<LeastState as Kept>⟧.fixed team.desk.now) (seen pass.old)).next }
    requires knows { IfOk plan.now (Knows (fixed_of ⟦<LeastState as Kept>⟧.fixed team.desk.now)
        (seen pass.old)) }

    // The pass.
    ensures here { IsOf ⟦<LeastState as Kept>⟧.fixed team.entry.desk.now pass.new }
    ensures free { HasNoTurn pass.new }
    ensures number { number pass.new ≡ number pass.old }
    ensures more { length (seen pass.old) < length (seen pass.new) }

    // What it did.
    ensures mine { GrowsBy result.done.fired (mine pass.old) (mine pass.new) }
    ensures swept { DropsNone plan.now → result.done.swept ≡ 0 }

    ensures entries { StartsWith (seen pass.new) (seen pass.old) }

    // What it saw then.
    ensures some { IfSome result.view (ShowsView
        (fixed_of ⟦<LeastState as Kept>⟧.fixed team.entry.desk.now) (seen pass.new)) }
    ensures changed { IfSome result.view (ChangedBetween
        (fixed_of ⟦<LeastState as Kept>⟧.fixed team.entry.desk.now) (seen pass.old)
        (seen pass.new)) }
{
    let mut turn = team.desk.take(rt, pass);
    let state = turn.state();
    // For its clause: it is a state of a run (`IsState`).
    let _length = state.base().length();
    let done = act_on(alloc, state, round.worker, round.looked, plan);
    let steps = team.task.options.steps;
    let view = view_below(alloc, state.base(), steps, round.looked, round.next);
    team.desk.give(pass, turn);
    TurnOutcome { done, view }
}
