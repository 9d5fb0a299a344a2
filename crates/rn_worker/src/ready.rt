//! A run for which all memory was taken that its end needs, and its workers, side by side.
ghost use Rattle.std.specs.Prelude.{◌≡◌, ◌≢◌, ◌<◌, ◌≤◌, ◌+◌, None, IfOk, length};
ghost use Rattle.rn_model.specs.Good.{Good, IsInLimits};
ghost use Rattle.rn_model.specs.Limits.{most_workers};
ghost use Rattle.rn_channel.specs.link.Uplinks.{AreUplinksOf};
ghost use Rattle.rn_desk.specs.Numbered.{EachAt};
ghost use Rattle.rn_worker.specs.Ends.{AreOfWorkers, IsTallyOf};
ghost use Rattle.rn_worker.specs.link.Posts.{IsAtWork, IsDone, IsOfSetup};

use crate::considering::Seed;
use crate::gate::Gate;
use crate::posts::{Post, parted, posts_of};
use crate::standby::Standby;
use crate::tally::{Tallies, Tally};
use crate::team::{Task, Team};
use crate::worker::work_while;
use rn_channel::Uplinks;
use rn_desk::{Closed, Desk, Pass, close, open_desk};
use rn_fire::{SimState, open_state};
use rn_items::{Items, NoMemory};
use rn_model::{Options, System};
use std::alloc::Global;
use std::marker::Model;
use std::sync::{Arc, Wait};
use std::thread;
use std::thread::Threads;

/// A run for which all memory was taken that its end needs, and in which no worker has begun.
#[derive(Drop)]
pub struct Ready {
    system: Arc<System>,
    uplinks: Uplinks,
    options: Options,
    desk: Desk<SimState>,
    posts: Vec<Post>,

    /// Room for what comes back from the posts.
    passes: Vec<Pass<SimState>>,
    tallies: Vec<Tally>,
}

impl Model for Ready {
    ghost use Rattle.std.specs.Coded.{codes};
    ghost use Rattle.rn_value.specs.contracts.value.Value as value;
    ghost use Rattle.rn_value.specs.contracts.value.Kind as kind;
    ghost use Rattle.rn_model.specs.contracts.expr.Expr as expr;
    ghost use Rattle.rn_model.specs.contracts.expr.Cond as cond;
    ghost use Rattle.rn_fire.specs.declared.setup.Setup.{Setup};
    ghost use Rattle.rn_worker.specs.link.Ready.{IsReady};

    ghost Value = { Setup };

    ghost coded = { Prim.hlevel (
      codes,
      value.the_row.coded,
      kind.the_row.coded,
      expr.the_row.coded,
      cond.the_row.coded,
    ) };

    ghost view = { λ r. record { system = r.system.value; options = r.options } };

    ghost invariant = { IsReady };
}

/// The state in which all workers left a run, and what each did. Instances that aren't live may be
/// kept.
#[derive(Drop)]
pub struct Ended {
    pub state: SimState,
    pub tallies: Tallies,
}

/// Takes all memory that the end of a run needs: no other request is made after a worker has begun
/// that could keep the run from ending with its state.
pub fn get_ready(alloc: Global, system: Arc<System>, options: Options) -> Result<Ready, NoMemory>
    requires good { Good system.value }
    requires limits { IsInLimits options }
    ensures { IfOk result (λ r. r ≡ record { system = system.value; options = options }) }
{
    let uplinks = Uplinks::new(alloc, &system)?;
    let state = open_state(alloc, Arc::try_clone(&system)?, options)?;
    let passes = Vec::with_capacity(alloc, options.workers as usize)?;
    let tallies = Vec::with_capacity(alloc, options.workers as usize)?;
    let (desk, fresh) = open_desk(alloc, state, options.workers)?;
    let posts = posts_of(alloc, &desk, fresh)?;
    Ok(Ready {
        system,
        uplinks,
        options,
        desk,
        posts,
        passes,
        tallies,
    })
}

// Each worker in a thread of its own where one can be made.
fn all_work<R: Threads + Wait + Sync, G: Gate + Sync>(
    rt: &R,
    alloc: Global,
    team: Team<'_>,
    gate: &G,
    posts: &mut [Post],
)
    requires count { (0 < length posts.old) × (length posts.old ≤ most_workers) }
    requires back { EachAt (IsAtWork team.desk.now) posts.old }
    requires fixed { IsOfSetup team.desk.now team.task.system.now team.task.options.now }
    requires own { AreUplinksOf team.task.system.now team.task.uplinks.now }
    ensures { EachAt (IsDone team.entry.desk.now team.entry.task.options.now.sweep_every)
        posts.new }
{
    let threads = posts.len();
    thread::for_each_mut(
        rt,
        posts,
        threads,
        &|i: usize, post: &mut Post|
            requires number { i < most_workers }
            requires back { IsAtWork team.desk.now (i + 1) post.old }
            requires fixed { IsOfSetup team.desk.now team.task.system.now team.task.options.now }
            requires own { AreUplinksOf team.task.system.now team.task.uplinks.now }
            ensures { IsDone team.entry.desk.now team.entry.task.options.now.sweep_every (i + 1)
                post.new }
        { work_while(rt, alloc, team, &mut post.pass, gate, &mut post.tally) },
    );
}

// How many of so many workers may be of use at once: no more than there are processors, where the
// system says how many.
fn processors(rt: &impl Threads, workers: u32) -> u32 {
    if workers == 1 {
        return 1;
    }
    match thread::available_parallelism(rt) {
        Ok(count) => count.get().min(workers as usize) as u32,
        Err(_) => workers,
    }
}

impl Ready {
    /// Runs by the number of workers, with a seed or none, until the log of the run has ended. It
    /// asks for no memory of its own, so it is never refused: where a worker is refused memory, the
    /// log ends for that.
    pub fn run<R: Threads + Wait + Sync, G: Gate + Sync>(
        self,
        rt: &R,
        alloc: Global,
        seed: Option<u32>,
        gate: &G,
    ) -> Ended
        ensures setup { result.state.setup ≡ self }
        ensures ended { result.state.ended ≢ None }
        ensures count { length result.tallies ≡ self.options.workers }
        ensures tallies { EachAt (IsTallyOf result.state.fired self.options.sweep_every)
            result.tallies }
        ensures workers { AreOfWorkers self.options.workers result.state.fired }
    {
        let Ready {
            system,
            uplinks,
            options,
            desk,
            mut posts,
            passes,
            tallies,
        } = self;
        let standby = Standby::new(processors(rt, options.workers));
        let task = Task {
            system: &system,
            uplinks: &uplinks,
            options: &options,
        };
        let team = Team {
            desk: &desk,
            task,
            seed: Seed { number: seed },
            standby: &standby,
        };
        all_work(rt, alloc, team, gate, posts.as_mut_slice());
        let (passes, tallies) = parted(posts, passes, tallies);
        let Closed { state } = close(desk, passes);
        // For its clause: it is a state of a run (`IsState`).
        let _length = state.length();
        Ended {
            state,
            tallies: Items::from_vec(tallies),
        }
    }
}
