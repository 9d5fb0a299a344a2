//! Turns that add nothing of the pass's own.
ghost use Rattle.std.specs.Prelude.{◌≡◌, ◌<◌, ◌≤◌, ◌+◌, length};
ghost use Rattle.std.specs.Bool.{OnTrue};
ghost use Rattle.rn_desk.specs.Numbered.{EachAt};
ghost use Rattle.rn_desk.specs.Passes.{number, seen, mine};
ghost use Rattle.rn_desk_uses.specs.Looks.{IsReady, HasLooked};
ghost use Rattle.rn_desk_uses.specs.Posts.{EndsWithNote};
ghost use Rattle.rn_desk_uses.specs.Sights.{IsToLook, IsShown};

use crate::sheet::{Line, Sheet};
use rn_desk::{Desk, Kept, Pass};
use std::sync::Wait;
use std::thread;
use std::thread::Threads;

/// A pass, and how many entries it saw when it last looked.
#[derive(Drop)]
pub struct PassSight<S: Kept> {
    pub pass: Pass<S>,
    pub entries: u64,
}

/// The number of entries now, as a turn that adds none finds it.
pub fn look<S: Kept, R: Wait>(rt: &R, desk: &Desk<S>, pass: &mut Pass<S>) -> u64
    requires { IsReady S.fixed desk.now pass.old }
    ensures { HasLooked S.fixed desk.now pass.old pass.new result }
{
    let mut turn = desk.take(rt, pass);
    let entries = turn.state().length();
    desk.give(pass, turn);
    entries
}

/// Each pass looks, in a thread of its own where one can be made.
pub fn look_all<S: Kept + Send, R: Threads + Wait + Sync>(
    rt: &R,
    desk: &Desk<S>,
    sights: &mut [PassSight<S>],
)
    requires some { 0 < length sights.old }
    requires ready { EachAt (IsToLook S.fixed desk.now) sights.old }
    ensures { EachAt (IsShown S.fixed desk.now) sights.new }
{
    let threads = sights.len();
    thread::for_each_mut(
        rt,
        sights,
        threads,
        &|i: usize, sight: &mut PassSight<S>|
            requires { IsToLook S.fixed desk.now (i + 1) sight.old }
            ensures { IsShown S.fixed desk.entry.now (i + 1) sight.new }
        { sight.entries = look(rt, desk, &mut sight.pass) },
    );
}

/// Adds a line that no worker authored, and returns whether there was memory for it.
pub fn write_note<R: Wait>(rt: &R, desk: &Desk<Sheet>, pass: &mut Pass<Sheet>, round: u32) -> bool
    requires ready { IsReady ⟦<Sheet as Kept>⟧.fixed desk.now pass.old }
    requires numbered { 1 ≤ number pass.old }
    ensures ready { IsReady ⟦<Sheet as Kept>⟧.fixed desk.now pass.new }
    ensures number { number pass.new ≡ number pass.old }
    ensures note { OnTrue result (EndsWithNote (seen pass.new) round) }
    ensures mine { mine pass.new ≡ mine pass.old }
{
    let mut turn = desk.take(rt, pass);
    let written = turn.state().write(Line { worker: 0, round });
    desk.give(pass, turn);
    written
}
