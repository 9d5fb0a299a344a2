//! A worker's pass together with its tally.
ghost use Rattle.std.specs.Prelude.{◌≡◌, ◌^◌, ◌<◌, ◌≤◌, [], IfOk, map, vec_len, vec_capacity};
ghost use Rattle.rn_desk.specs.Numbered.{EachAt};
ghost use Rattle.rn_desk.specs.Passes.{IsFresh};
ghost use Rattle.rn_worker.specs.link.Posts.{IsAtWork};

use crate::tally::Tally;
use rn_desk::{Desk, Kept, Pass};
use rn_fire::SimState;
use rn_items::NoMemory;
use std::alloc::Global;

#[derive(Drop)]
pub(crate) struct Post {
    pub pass: Pass<SimState>,
    pub tally: Tally,
}

/// Each pass with a tally of nothing.
pub(crate) fn posts_of(
    alloc: Global,
    desk: &Desk<SimState>,
    passes: Vec<Pass<SimState>>,
) -> Result<Vec<Post>, NoMemory>
    requires count { vec_len passes < 2 ^ 32 }
    requires fresh { EachAt (IsFresh ⟦<SimState as Kept>⟧.fixed desk.now) passes.items }
    ensures { IfOk result (λ v. (vec_len v ≡ vec_len passes) × EachAt (IsAtWork desk.now) v.items) }
{
    let mut posts = Vec::with_capacity(alloc, passes.len())?;
    let mut rest = passes;
    let mut worker = 0;
    while rest.len() > 0 {
        let pass = rest.remove(0);
        worker += 1;
        posts.push_reserved(Post {
            pass,
            tally: Tally {
                worker,
                fired: 0,
                swept: 0,
            },
        });
    }
    Ok(posts)
}

/// The passes and the tallies, each in order, moved into the room that was taken for them.
pub(crate) fn parted(
    posts: Vec<Post>,
    mut passes: Vec<Pass<SimState>>,
    mut tallies: Vec<Tally>,
) -> (Vec<Pass<SimState>>, Vec<Tally>)
    requires empty { (passes.items ≡ []) × (tallies.items ≡ []) }
    requires room { (vec_len posts ≤ vec_capacity passes) × (vec_len posts ≤ vec_capacity tallies) }
    ensures passes { result.0.items ≡ map (λ p. p.pass) posts.items }
    ensures tallies { result.1.items ≡ map (λ p. p.tally) posts.items }
{
    let mut rest = posts;
    while rest.len() > 0 {
        let Post { pass, tally } = rest.remove(0);
        passes.push_reserved(pass);
        tallies.push_reserved(tally);
    }
    (passes, tallies)
}
