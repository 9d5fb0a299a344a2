//! How a worker looks: by a turn of its own, or at the end of a turn in which it acted.
ghost use Rattle.std.specs.Prelude.{◌≡◌, ◌≢◌, ◌<◌, ◌≤◌, None, IfNone, IfSome, length};
ghost use Rattle.rn_desk.specs.Entries.{StartsWith};
ghost use Rattle.rn_desk.specs.Passes.{fixed_of, number, seen, mine, IsOf, HasNoTurn};
ghost use Rattle.rn_firsts.specs.Resting.{Resting};
ghost use Rattle.rn_worker.specs.link.Seen.{HasEnded, IsSightOf, StaysOrEnds};
ghost use Rattle.rn_worker.specs.link.Views.{ChangedSince, FollowsIdle, ShowsView, next_after};

use crate::standby::WorkerRole;
use crate::team::Team;
use rn_desk::{Desk, Kept, Pass};
use rn_fire::SimState;
use rn_table::Table;
use std::alloc::Global;
use std::sync::Wait;

// What changed is looked for in up to so many entries.
const MOST_ENTRIES: u64 = 64;

// While the next instance gets a number up to this one, what changed isn't looked for: to search so few
// again costs less.
const FEW: u32 = 16;

/// A snapshot of the table, and how many entries the log had.
#[derive(Drop)]
pub struct Sight {
    pub table: Table,
    pub seen: u64,
}

/// A round of a worker, by its number: how many entries its snapshot shows, and which number the
/// next instance was to get there.
#[derive(Clone, Copy)]
pub struct Round {
    pub worker: u32,
    pub looked: u64,
    pub next: u32,
}

/// A snapshot, and the instances that may have changed since the one before, where that is known.
#[derive(Drop)]
pub struct View {
    pub sight: Sight,
    pub changed: Option<Vec<u32>>,
}

// A snapshot of a state whose log goes on. A log at the step limit ends so, and one without memory
// for the snapshot ends so.
fn sight_of(state: &mut SimState) -> Option<Sight>
    ensures kept { StaysOrEnds state.old state.new }
    ensures some { IfSome result (IsSightOf state.new) }
    ensures none { IfNone result (state.new.ended ≢ None) }
{
    state.end_steps();
    if state.has_ended() {
        return None;
    }
    let seen = state.length();
    match state.table().snapshot() {
        Ok(table) => Some(Sight { table, seen }),
        Err(no_memory) => {
            state.end_memory(no_memory);
            None
        }
    }
}

// A snapshot of a state whose log goes on below so many steps, where there is memory for it. The state
// stays as it is, since a turn adds one entry at most and may have added it.
fn sight_below(state: &SimState, steps: u32) -> Option<Sight>
    ensures some { IfSome result (IsSightOf state.now) }
    ensures below { IfSome result (λ v. v.seen < steps) }
{
    let seen = state.length();
    if state.has_ended() || seen >= steps as u64 {
        return None;
    }
    match state.table().snapshot() {
        Ok(table) => Some(Sight { table, seen }),
        Err(_) => None,
    }
}

// The instances that the entries after the first so many may have changed, where these are few and
// instances aren't.
fn changed_since(
    alloc: Global,
    state: &SimState,
    looked: u64,
    next: u32,
    now: u64,
) -> Option<Vec<u32>>
    requires looked { looked ≤ length state.now.fired }
    requires next { next ≡ next_after state.now looked }
    ensures { IfSome result (λ changed. ChangedSince state.now looked changed.items) }
{
    if next <= FEW || now.saturating_sub(looked) > MOST_ENTRIES {
        return None;
    }
    match state.changed_since(alloc, looked, next) {
        Ok(changed) => Some(changed),
        Err(_) => None,
    }
}

/// A snapshot of a state whose log goes on below so many steps, and what changed since so many entries,
/// after which the next instance was to get this number.
pub fn view_below(
    alloc: Global,
    state: &SimState,
    steps: u32,
    looked: u64,
    next: u32,
) -> Option<View>
    requires looked { looked ≤ length state.now.fired }
    requires next { next ≡ next_after state.now looked }
    ensures some { IfSome result (λ v. IsSightOf state.now v.sight) }
    ensures below { IfSome result (λ v. v.sight.seen < steps) }
    ensures changed { IfSome result (λ v. IfSome v.changed (λ changed.
        ChangedSince state.now looked changed.items)) }
{
    let Some(sight) = sight_below(state, steps) else {
        return None;
    };
    let changed = changed_since(alloc, state, looked, next, sight.seen);
    Some(View { sight, changed })
}

/// Takes a turn and looks. `None` exactly where the log has then ended. What changed isn't
/// looked for.
pub(crate) fn look<R: Wait>(
    rt: &R,
    desk: &Desk<SimState>,
    pass: &mut Pass<SimState>,
) -> Option<View>
    requires here { IsOf ⟦<SimState as Kept>⟧.fixed desk.now pass.old }
    requires free { HasNoTurn pass.old }
    requires numbered { 1 ≤ number pass.old }
    ensures here { IsOf ⟦<SimState as Kept>⟧.fixed desk.now pass.new }
    ensures free { HasNoTurn pass.new }
    ensures number { number pass.new ≡ number pass.old }
    ensures mine { mine pass.new ≡ mine pass.old }
    ensures entries { StartsWith (seen pass.new) (seen pass.old) }
    ensures some { IfSome result (ShowsView (fixed_of ⟦<SimState as Kept>⟧.fixed desk.now)
        (seen pass.new)) }
    ensures none { IfNone result (HasEnded (seen pass.new)) }
    ensures follows { (k : Resting) → IfSome result
        (FollowsIdle (fixed_of ⟦<SimState as Kept>⟧.fixed desk.now) k) }
{
    let mut turn = desk.take(rt, pass);
    let sight = sight_of(turn.state());
    desk.give(pass, turn);
    match sight {
        Some(sight) => Some(View {
            sight,
            changed: None,
        }),
        None => None,
    }
}

/// What a worker sees next: what its last turn left, or else what it sees by a turn of its own. Where it
/// stands by, it lets that snapshot go, sleeps, and then looks by a turn of its own. `None` exactly where
/// the log has then ended.
pub(crate) fn look_on<R: Wait>(
    rt: &R,
    team: Team<'_>,
    pass: &mut Pass<SimState>,
    left: Option<View>,
    role: WorkerRole,
    rests: bool,
) -> Option<View>
    requires here { IsOf ⟦<SimState as Kept>⟧.fixed team.desk.now pass.old }
    requires free { HasNoTurn pass.old }
    requires numbered { 1 ≤ number pass.old }
    requires left { IfSome left (ShowsView (fixed_of ⟦<SimState as Kept>⟧.fixed team.desk.now)
        (seen pass.old)) }
    ensures here { IsOf ⟦<SimState as Kept>⟧.fixed team.entry.desk.now pass.new }
    ensures free { HasNoTurn pass.new }
    ensures number { number pass.new ≡ number pass.old }
    ensures mine { mine pass.new ≡ mine pass.old }
    ensures entries { StartsWith (seen pass.new) (seen pass.old) }
    ensures some { IfSome result (ShowsView
        (fixed_of ⟦<SimState as Kept>⟧.fixed team.entry.desk.now) (seen pass.new)) }
    ensures none { IfNone result (HasEnded (seen pass.new)) }
    ensures follows { (k : Resting) →
        IfSome left (FollowsIdle (fixed_of ⟦<SimState as Kept>⟧.fixed team.entry.desk.now) k) →
        IfSome result (FollowsIdle (fixed_of ⟦<SimState as Kept>⟧.fixed team.entry.desk.now) k) }
{
    if rests {
        drop(left);
        team.standby.sleep(rt, role);
        return look(rt, team.desk, pass);
    }
    match left {
        Some(view) => Some(view),
        None => look(rt, team.desk, pass),
    }
}
