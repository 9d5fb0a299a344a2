//! What a worker does between its turns: it searches its snapshot for the first binding that is
//! enabled.
ghost use Rattle.std.specs.Prelude.{◌≡◌, IfOk, false};
ghost use Rattle.rn_worker.specs.link.Plans.{IsToSearch};
ghost use Rattle.rn_firsts.specs.Known.{IsKnown};
ghost use Rattle.rn_least_workers.specs.link.Following.{FollowsIn};
ghost use Rattle.rn_least_workers.specs.link.LeastPlans.{DropsNone, IsLeastAt, IsPlanAt};

use rn_binding::Candidate;
use rn_firsts::Firsts;
use rn_items::NoMemory;
use rn_worker::{Task, View, listed_at};
use std::alloc::Global;

/// What a worker found: the first binding that was enabled, or `None` where none was; instances that
/// weren't live; and how many were, with their tokens, where it listed those.
#[derive(Drop)]
pub(crate) struct LeastPlan {
    pub found: Option<Candidate>,
    pub dead: Vec<u32>,
    pub live: Option<u64>,
}

// The first binding of a snapshot.
fn find_at(
    alloc: Global,
    task: Task<'_>,
    firsts: &mut Firsts,
    view: &View,
) -> Result<Option<Candidate>, NoMemory>
    requires table { IsToSearch task.system.now task.uplinks.now view.now.sight.table }
    requires follows { FollowsIn task.system.now task.options.now.depth firsts.old view.now }
    ensures least { IfOk result (IsLeastAt task.entry.system.now task.entry.options.now.depth
        view.now.sight.table.marking) }
    ensures known { IsKnown task.entry.system.now view.now.sight.table.marking
        task.entry.options.now.depth firsts.new }
{
    let Task {
        system,
        uplinks,
        options,
    } = task;
    let depth = options.depth;
    let table = &view.sight.table;
    match &view.changed {
        Some(numbers) => {
            let changed = Some(numbers.as_slice());
            firsts.look(alloc, system, uplinks, table, depth, changed)
        }
        None => firsts.look(alloc, system, uplinks, table, depth, None),
    }
}

/// Searches a snapshot, and lists what isn't live there where that is due.
pub(crate) fn plan_at(
    alloc: Global,
    task: Task<'_>,
    firsts: &mut Firsts,
    view: View,
    due: bool,
) -> Result<LeastPlan, NoMemory>
    requires table { IsToSearch task.system.now task.uplinks.now view.sight.table }
    requires follows { FollowsIn task.system.now task.options.now.depth firsts.old view }
    ensures plan { IfOk result (IsPlanAt task.entry.system.now task.entry.options.now.depth
        view.sight.table) }
    ensures none { due ≡ false → DropsNone result }
    ensures known { IsKnown task.entry.system.now view.sight.table.marking
        task.entry.options.now.depth firsts.new }
{
    let found = find_at(alloc, task, firsts, &view)?;
    let (dead, live) = listed_at(alloc, task.system, &view.sight.table, due)?;
    Ok(LeastPlan { found, dead, live })
}

/// How many instances and tokens were live, where a worker listed the instances that weren't.
pub(crate) fn live_then(plan: &Result<LeastPlan, NoMemory>) -> Option<u64> {
    match plan {
        Ok(plan) => plan.live,
        Err(_) => None,
    }
}
