//! Workers side by side, each with its pass.
ghost use Rattle.std.specs.Prelude.{◌≡◌, ◌≤◌, ◌+◌, ◌<◌, ℕ, [], IfOk, length, vec_len};
ghost use Rattle.rn_desk.specs.Entries.{authored};
ghost use Rattle.rn_desk.specs.Numbered.{EachAt};
ghost use Rattle.rn_desk.specs.Passes.{number, mine, IsOf, HasNoTurn};
ghost use Rattle.rn_desk_uses.specs.Posts.{IsAtWork, IsDone, FiredBy};

use crate::post::{Post, RoundTally, parted, posts_of};
use crate::sheet::{Line, Sheet};
use rn_desk::{Closed, Desk, Kept, MOST_SEATS, Pass, close, open_desk};
use rn_items::NoMemory;
use std::alloc::Global;
use std::sync::Wait;
use std::thread;
use std::thread::Threads;

/// A sheet on which so many workers write a line in each round, while memory is left.
pub fn write_sheet<R: Threads + Wait + Sync>(
    rt: &R,
    alloc: Global,
    workers: u32,
    rounds: u32,
) -> Result<(Sheet, Vec<RoundTally>), NoMemory>
    requires { (1 ≤ workers) × (workers ≤ MOST_SEATS) }
    ensures title { IfOk result (λ r. r.0.title ≡ 7) }
    ensures count { IfOk result (λ r. vec_len r.1 ≡ workers) }
    ensures tallies { IfOk result (λ r. EachAt (FiredBy r.0.lines.items rounds) r.1.items) }
    ensures others { IfOk result (λ r. (n : ℕ) → workers < n → authored ⟦<Sheet as Kept>⟧.author n r.0.lines.items ≡ []) }
{
    let (desk, passes) = open_desk(alloc, Sheet::new(alloc, 7), workers)?;
    let mut posts = posts_of(alloc, &desk, passes)?;
    all_work(rt, &desk, posts.as_mut_slice(), rounds);
    let (passes, tallies) = parted(alloc, posts)?;
    let Closed { state } = close(desk, passes);
    Ok((state, tallies))
}

// Each worker in a thread of its own where one can be made.
fn all_work<R: Threads + Wait + Sync>(rt: &R, desk: &Desk<Sheet>, posts: &mut [Post], rounds: u32)
    requires count { 0 < length posts.old }
    requires back { EachAt (IsAtWork desk.now) posts.old }
    ensures { EachAt (IsDone desk.now rounds) posts.new }
{
    let threads = posts.len();
    thread::for_each_mut(
        rt,
        posts,
        threads,
        &|i: usize, post: &mut Post|
            requires { IsAtWork desk.now (i + 1) post.old }
            ensures { IsDone desk.entry.now rounds (i + 1) post.new }
        { work(rt, desk, &mut post.pass, &mut post.tally, rounds) },
    );
}

/// Takes a turn in each round, and writes a line in it while memory is left.
pub fn work<R: Wait>(
    rt: &R,
    desk: &Desk<Sheet>,
    pass: &mut Pass<Sheet>,
    tally: &mut RoundTally,
    rounds: u32,
)
    requires here { IsOf ⟦<Sheet as Kept>⟧.fixed desk.now pass.old }
    requires free { HasNoTurn pass.old }
    requires worker { number pass.old ≡ tally.old.worker }
    requires new { (mine pass.old ≡ []) × (tally.old.fired ≡ 0) × (tally.old.refused ≡ 0) }
    ensures here { IsOf ⟦<Sheet as Kept>⟧.fixed desk.now pass.new }
    ensures free { HasNoTurn pass.new }
    ensures worker { (number pass.new ≡ number pass.old) × (tally.new.worker ≡ tally.old.worker) }
    ensures fired { tally.new.fired ≡ length (mine pass.new) }
    ensures rounds { tally.new.fired + tally.new.refused ≡ rounds }
{
    for round in 0..rounds {
        let mut turn = desk.take(rt, pass);
        let line = Line {
            worker: tally.worker,
            round,
        };
        let written = turn.state().write(line);
        desk.give(pass, turn);
        if written {
            tally.fired += 1;
        } else {
            tally.refused += 1;
        }
    }
}
