//! One worker.
ghost use Rattle.std.specs.Prelude.{◌≡◌, ◌≤◌, [], length};
ghost use Rattle.rn_model.specs.Limits.{most_workers};
ghost use Rattle.rn_channel.specs.link.Uplinks.{AreUplinksOf};
ghost use Rattle.rn_desk.specs.Passes.{fixed_of, number, seen, mine, IsOf, HasNoTurn};
ghost use Rattle.rn_worker.specs.link.Seen.{HasEnded};

use crate::acting::{TurnOutcome, act};
use crate::considering::{
    SearchEnd, Seed, count_round, go_beside, go_on_after, late_after, plan_at, searcher_of,
    start_beside, was_stopped,
};
use crate::gate::Gate;
use crate::looking::{Round, look, look_on};
use crate::pacing::Pace;
use crate::standby::{Standby, Watch};
use crate::tally::Tally;
use crate::team::{Task, Team};
use rn_channel::Uplinks;
use rn_desk::{Desk, Kept, Pass};
use rn_fire::SimState;
use rn_model::{Options, System};
use std::alloc::Global;
use std::sync::Wait;

/// Fires until the log has ended. In its first turn the worker takes a snapshot. Then each round takes
/// one turn: the worker searches its snapshot with no turn held, and in the turn it commits what it found
/// and takes the next snapshot. Only where it gets none there, it looks by a turn of its own.
///
/// Where it comes too late to fire what it found, its searcher goes on beside that.
/// Without memory it ends the log.
pub fn work<R: Wait, G: Gate + Sync>(
    rt: &R,
    alloc: Global,
    desk: &Desk<SimState>,
    pass: &mut Pass<SimState>,
    system: &System,
    uplinks: &Uplinks,
    gate: &G,
    options: &Options,
    tally: &mut Tally,
)
    requires here { IsOf ⟦<SimState as Kept>⟧.fixed desk.now pass.old }
    requires free { HasNoTurn pass.old }
    requires worker { number pass.old ≡ tally.old.worker }
    requires numbered { (1 ≤ number pass.old) × (number pass.old ≤ most_workers) }
    requires new { (mine pass.old ≡ []) × (tally.old.fired ≡ 0) × (tally.old.swept ≡ 0) }
    requires fixed { fixed_of ⟦<SimState as Kept>⟧.fixed desk.now
        ≡ record { system = system.now; options = options.now } }
    requires own { AreUplinksOf system.now uplinks.now }

    // The pass.
    ensures here { IsOf ⟦<SimState as Kept>⟧.fixed desk.now pass.new }
    ensures free { HasNoTurn pass.new }
    ensures number { number pass.new ≡ number pass.old }
    ensures ended { HasEnded (seen pass.new) }

    // The tally.
    ensures worker { tally.new.worker ≡ tally.old.worker }
    ensures fired { tally.new.fired ≡ length (mine pass.new) }
    ensures swept { options.now.sweep_every ≡ 0 → tally.new.swept ≡ 0 }
{
    let standby = Standby::new(options.workers);
    let seed = Seed { number: None };
    let task = Task {
        system,
        uplinks,
        options,
    };
    let team = Team {
        desk,
        task,
        seed,
        standby: &standby,
    };
    work_while(rt, alloc, team, pass, gate, tally)
}

/// The same, with a seed or none, and beside others: a worker that isn't needed stands by, and who has
/// seen the log's end ends the others' searches and wakes all.
///
/// No promise rests on that. A worker whose search was stopped though the log goes on searches its next
/// snapshot whole.
pub(crate) fn work_while<R: Wait, G: Gate + Sync>(
    rt: &R,
    alloc: Global,
    team: Team<'_>,
    pass: &mut Pass<SimState>,
    gate: &G,
    tally: &mut Tally,
)
    requires here { IsOf ⟦<SimState as Kept>⟧.fixed team.desk.now pass.old }
    requires free { HasNoTurn pass.old }
    requires worker { number pass.old ≡ tally.old.worker }
    requires numbered { (1 ≤ number pass.old) × (number pass.old ≤ most_workers) }
    requires new { (mine pass.old ≡ []) × (tally.old.fired ≡ 0) × (tally.old.swept ≡ 0) }
    requires fixed { fixed_of ⟦<SimState as Kept>⟧.fixed team.desk.now
        ≡ record { system = team.task.system.now; options = team.task.options.now } }
    requires own { AreUplinksOf team.task.system.now team.task.uplinks.now }

    // The pass.
    ensures here { IsOf ⟦<SimState as Kept>⟧.fixed team.entry.desk.now pass.new }
    ensures free { HasNoTurn pass.new }
    ensures number { number pass.new ≡ number pass.old }
    ensures ended { HasEnded (seen pass.new) }

    // The tally.
    ensures worker { tally.new.worker ≡ tally.old.worker }
    ensures fired { tally.new.fired ≡ length (mine pass.new) }
    ensures swept { team.entry.task.options.now.sweep_every ≡ 0 → tally.new.swept ≡ 0 }
{
    let Team {
        desk,
        task,
        seed,
        standby,
    } = team;
    let worker = tally.worker;
    let role = standby.role_of(worker);
    let mut searcher = searcher_of(alloc, worker, task.options.workers, seed);
    let mut pace = Pace::new();
    let mut late = 0;
    let mut rests = false;
    let mut stopped = false;
    let mut watch = Watch::new(standby, role);
    standby.begin(role);
    let mut view = look(rt, desk, pass);
    while let Some(now) = view {
        let round = Round {
            worker,
            looked: now.sight.seen,
            next: now.sight.table.next(),
        };
        go_on_after(&mut searcher.finding, rests, worker, round.next);
        watch.begin(&searcher.finding);
        let end = SearchEnd {
            watch: &watch,
            whole: stopped,
        };
        let plan = plan_at(alloc, task, &mut searcher, now, pace, end);
        let beside = start_beside(round, late, &plan);
        gate.between(worker, round.looked);
        let TurnOutcome { done, view: left } = act(rt, alloc, team, pass, round, &plan);
        count_round(tally, &mut pace, &plan, done);
        go_beside(&mut searcher.finding, done.fired, beside);
        late = late_after(late, done.fired);
        stopped = was_stopped(&plan);
        watch.note_round(&searcher.finding, stopped, done.fired);
        rests = left.is_some() && watch.stands_by();
        view = look_on(rt, team, pass, left, role, rests);
    }
    standby.end();
}
