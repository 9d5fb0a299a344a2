//! A least run for which all memory was taken that its end needs, and its workers, side by side.
ghost use Rattle.std.specs.Prelude.{◌≡◌, ◌≢◌, ◌<◌, ◌≤◌, ◌+◌, None, IfOk, length};
ghost use Rattle.rn_model.specs.Good.{Good, IsInLimits};
ghost use Rattle.rn_model.specs.Limits.{most_workers};
ghost use Rattle.rn_channel.specs.link.Uplinks.{AreUplinksOf};
ghost use Rattle.rn_desk.specs.Numbered.{EachAt};
ghost use Rattle.rn_worker.specs.Ends.{AreOfWorkers, IsTallyOf};
ghost use Rattle.rn_worker.specs.link.Posts.{IsOfSetup};
ghost use Rattle.rn_least_state.specs.LeastStates.{HasLeastLog};
ghost use Rattle.rn_least_workers.specs.link.LeastPosts.{IsAtWork, IsDone};

use crate::posts::{LeastPost, parted, posts_of};
use crate::team::LeastTeam;
use crate::worker::work_least;
use rn_channel::Uplinks;
use rn_desk::{Closed, Desk, Pass, close, open_desk};
use rn_items::{Items, NoMemory};
use rn_least_state::{LeastState, open_least};
use rn_model::{Options, System};
use rn_worker::{Ended, Gate, Tally, Task};
use std::alloc::Global;
use std::marker::Model;
use std::sync::{Arc, Wait};
use std::thread;
use std::thread::Threads;

/// A least run for which all memory was taken that its end needs, and in which no worker has begun.
#[derive(Drop)]
pub struct LeastReady {
    system: Arc<System>,
    uplinks: Uplinks,
    options: Options,
    desk: Desk<LeastState>,
    posts: Vec<LeastPost>,

    /// Room for what comes back from the posts.
    passes: Vec<Pass<LeastState>>,
    tallies: Vec<Tally>,
}

impl Model for LeastReady {
    ghost use Rattle.std.specs.Coded.{codes};
    ghost use Rattle.rn_value.specs.contracts.value.Value as value;
    ghost use Rattle.rn_value.specs.contracts.value.Kind as kind;
    ghost use Rattle.rn_model.specs.contracts.expr.Expr as expr;
    ghost use Rattle.rn_model.specs.contracts.expr.Cond as cond;
    ghost use Rattle.rn_fire.specs.declared.setup.Setup.{Setup};
    ghost use Rattle.rn_least_workers.specs.link.LeastReady.{IsReady};

    ghost Value = { Setup };

    ghost coded = { Prim.hlevel (
      codes,
      value.the_row.coded,
      kind.the_row.coded,
      expr.the_row.coded,
      cond.the_row.coded,
    ) };

    ghost view = { λ r. record { system = r.system.value; options = r.options } };

    ghost invariant = { IsReady };
}

/// Takes all memory that the end of a least run needs: no other request is made after a worker has
/// begun that could keep the run from ending with its state.
pub fn get_least_ready(
    alloc: Global,
    system: Arc<System>,
    options: Options,
) -> Result<LeastReady, NoMemory>
    requires good { Good system.value }
    requires limits { IsInLimits options }
    ensures { IfOk result (λ r. r ≡ record { system = system.value; options = options }) }
{
    let uplinks = Uplinks::new(alloc, &system)?;
    let state = open_least(alloc, Arc::try_clone(&system)?, options)?;
    let passes = Vec::with_capacity(alloc, options.workers as usize)?;
    let tallies = Vec::with_capacity(alloc, options.workers as usize)?;
    let (desk, fresh) = open_desk(alloc, state, options.workers)?;
    let posts = posts_of(alloc, &desk, fresh)?;
    Ok(LeastReady {
        system,
        uplinks,
        options,
        desk,
        posts,
        passes,
        tallies,
    })
}

// Each worker in a thread of its own where one can be made.
fn all_work<R: Threads + Wait + Sync, G: Gate + Sync>(
    rt: &R,
    alloc: Global,
    team: LeastTeam<'_>,
    gate: &G,
    posts: &mut [LeastPost],
)
    requires count { (0 < length posts.old) × (length posts.old ≤ most_workers) }
    requires back { EachAt (IsAtWork team.desk.now) posts.old }
    requires fixed { IsOfSetup team.desk.now team.task.system.now team.task.options.now }
    requires own { AreUplinksOf team.task.system.now team.task.uplinks.now }
    ensures { EachAt (IsDone team.entry.desk.now team.entry.task.options.now.sweep_every)
        posts.new }
{
    let threads = posts.len();
    thread::for_each_mut(
        rt,
        posts,
        threads,
        &|i: usize, post: &mut LeastPost|
            requires number { i < most_workers }
            requires back { IsAtWork team.desk.now (i + 1) post.old }
            requires fixed { IsOfSetup team.desk.now team.task.system.now team.task.options.now }
            requires own { AreUplinksOf team.task.system.now team.task.uplinks.now }
            ensures { IsDone team.entry.desk.now team.entry.task.options.now.sweep_every (i + 1)
                post.new }
        { work_least(rt, alloc, team, &mut post.pass, gate, &mut post.tally) },
    );
}

impl LeastReady {
    /// Does the least run by its number of workers, until its log has ended. It asks for no memory
    /// of its own, so it is never refused: where a worker is refused memory, the log ends for that.
    pub fn run<R: Threads + Wait + Sync, G: Gate + Sync>(
        self,
        rt: &R,
        alloc: Global,
        gate: &G,
    ) -> Ended
        ensures setup { result.state.setup ≡ self }
        ensures ended { result.state.ended ≢ None }
        ensures least { HasLeastLog result.state }
        ensures count { length result.tallies ≡ self.options.workers }
        ensures tallies { EachAt (IsTallyOf result.state.fired self.options.sweep_every)
            result.tallies }
        ensures workers { AreOfWorkers self.options.workers result.state.fired }
    {
        let LeastReady {
            system,
            uplinks,
            options,
            desk,
            mut posts,
            passes,
            tallies,
        } = self;
        let task = Task {
            system: &system,
            uplinks: &uplinks,
            options: &options,
        };
        let team = LeastTeam { desk: &desk, task };
        all_work(rt, alloc, team, gate, posts.as_mut_slice());
        let (passes, tallies) = parted(posts, passes, tallies);
        let Closed { state: closed } = close(desk, passes);
        let state = closed.into_state();
        // For its clause: it is a state of a run (`IsState`).
        let _length = state.length();
        Ended {
            state,
            tallies: Items::from_vec(tallies),
        }
    }
}
