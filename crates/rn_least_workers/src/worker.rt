//! One worker of a least run.
ghost use Rattle.std.specs.Prelude.{◌≡◌, ◌≤◌, [], length};
ghost use Rattle.rn_model.specs.Limits.{most_workers};
ghost use Rattle.rn_channel.specs.link.Uplinks.{AreUplinksOf};
ghost use Rattle.rn_desk.specs.Passes.{fixed_of, number, seen, mine, IsOf, HasNoTurn};
ghost use Rattle.rn_worker.specs.link.Seen.{HasEnded};

use crate::acting::{TurnOutcome, act};
use crate::considering::{live_then, plan_at};
use crate::looking::{look, look_on};
use crate::team::LeastTeam;
use rn_desk::{Kept, Pass};
use rn_firsts::Firsts;
use rn_least_state::LeastState;
use rn_worker::{Gate, Pace, Round, Tally};
use std::alloc::Global;
use std::sync::Wait;

/// Fires the first binding that is enabled, until the log has ended. In its first turn the worker takes a
/// snapshot. Then each round takes one turn: the worker searches its snapshot with no turn held, and in
/// the turn it commits what it found, unless others fired since, and takes the next snapshot. Only where
/// it gets none there, it looks by a turn of its own.
///
/// Without memory it ends the log.
pub(crate) fn work_least<R: Wait, G: Gate + Sync>(
    rt: &R,
    alloc: Global,
    team: LeastTeam<'_>,
    pass: &mut Pass<LeastState>,
    gate: &G,
    tally: &mut Tally,
)
    requires here { IsOf ⟦<LeastState as Kept>⟧.fixed team.desk.now pass.old }
    requires free { HasNoTurn pass.old }
    requires worker { number pass.old ≡ tally.old.worker }
    requires numbered { (1 ≤ number pass.old) × (number pass.old ≤ most_workers) }
    requires new { (mine pass.old ≡ []) × (tally.old.fired ≡ 0) × (tally.old.swept ≡ 0) }
    requires fixed { fixed_of ⟦<LeastState as Kept>⟧.fixed team.desk.now
        ≡ record { system = team.task.system.now; options = team.task.options.now } }
    requires own { AreUplinksOf team.task.system.now team.task.uplinks.now }

    // The pass.
    ensures here { IsOf ⟦<LeastState as Kept>⟧.fixed team.entry.desk.now pass.new }
    ensures free { HasNoTurn pass.new }
    ensures number { number pass.new ≡ number pass.old }
    ensures ended { HasEnded (seen pass.new) }

    // The tally.
    ensures worker { tally.new.worker ≡ tally.old.worker }
    ensures fired { tally.new.fired ≡ length (mine pass.new) }
    ensures swept { team.entry.task.options.now.sweep_every ≡ 0 → tally.new.swept ≡ 0 }
{
    let LeastTeam { desk, task } = team;
    let worker = tally.worker;
    let mut pace = Pace::new();
    let mut firsts = Firsts::new(alloc);
    let mut view = look(rt, desk, pass);
    while let Some(now) = view {
        let round = Round {
            worker,
            looked: now.sight.seen,
            next: now.sight.table.next(),
        };
        let due = pace.is_due(task.options.sweep_every, round.next);
        let plan = plan_at(alloc, task, &mut firsts, now, due);
        gate.between(worker, round.looked);
        let TurnOutcome { done, view: left } = act(rt, alloc, team, pass, round, &plan);
        tally.count(done);
        pace = pace.after(live_then(&plan), done.fired);
        view = look_on(rt, desk, pass, left);
    }
}
