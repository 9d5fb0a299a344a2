//! How a worker looks: by a turn of its own, or at the end of a turn in which it acted.
ghost use Rattle.std.specs.Prelude.{◌≡◌, ◌≢◌, ◌≤◌, None, IfNone, IfSome};
ghost use Rattle.rn_desk.specs.Entries.{StartsWith};
ghost use Rattle.rn_desk.specs.Passes.{fixed_of, number, seen, mine, IsOf, HasNoTurn};
ghost use Rattle.rn_worker.specs.link.Seen.{HasEnded, IsSightOf, StaysOrEnds};
ghost use Rattle.rn_firsts.specs.Known.{Known};
ghost use Rattle.rn_worker.specs.link.Views.{ShowsView};
ghost use Rattle.rn_least_workers.specs.link.Following.{FollowsKnown};

use rn_desk::{Desk, Kept, Pass};
use rn_least_state::LeastState;
use rn_worker::{Sight, View};
use std::sync::Wait;

// A snapshot of a state whose log goes on. A log at the step limit ends so, and one without memory
// for the snapshot ends so.
fn sight_of(state: &mut LeastState) -> Option<Sight>
    ensures kept { StaysOrEnds state.old state.new }
    ensures some { IfSome result (IsSightOf state.new) }
    ensures none { IfNone result (state.new.ended ≢ None) }
{
    state.end_steps();
    let base = state.base();
    if base.has_ended() {
        return None;
    }
    let seen = base.length();
    match base.table().snapshot() {
        Ok(table) => Some(Sight { table, seen }),
        Err(no_memory) => {
            state.end_memory(no_memory);
            None
        }
    }
}

/// Takes a turn and looks. `None` exactly where the log has then ended. What changed isn't looked for.
pub(crate) fn look<R: Wait>(
    rt: &R,
    desk: &Desk<LeastState>,
    pass: &mut Pass<LeastState>,
) -> Option<View>
    requires here { IsOf ⟦<LeastState as Kept>⟧.fixed desk.now pass.old }
    requires free { HasNoTurn pass.old }
    requires numbered { 1 ≤ number pass.old }
    ensures here { IsOf ⟦<LeastState as Kept>⟧.fixed desk.now pass.new }
    ensures free { HasNoTurn pass.new }
    ensures number { number pass.new ≡ number pass.old }
    ensures mine { mine pass.new ≡ mine pass.old }
    ensures entries { StartsWith (seen pass.new) (seen pass.old) }
    ensures some { IfSome result (ShowsView (fixed_of ⟦<LeastState as Kept>⟧.fixed desk.now)
        (seen pass.new)) }
    ensures none { IfNone result (HasEnded (seen pass.new)) }
    ensures follows { (k : Known) → IfSome result
        (FollowsKnown (fixed_of ⟦<LeastState as Kept>⟧.fixed desk.now) k) }
{
    let mut turn = desk.take(rt, pass);
    let sight = sight_of(turn.state());
    desk.give(pass, turn);
    match sight {
        Some(sight) => Some(View {
            sight,
            changed: None,
        }),
        None => None,
    }
}

/// What a worker sees next: what its last turn left, or else what it sees by a turn of its own. `None`
/// exactly where the log has then ended.
pub(crate) fn look_on<R: Wait>(
    rt: &R,
    desk: &Desk<LeastState>,
    pass: &mut Pass<LeastState>,
    left: Option<View>,
) -> Option<View>
    requires here { IsOf ⟦<LeastState as Kept>⟧.fixed desk.now pass.old }
    requires free { HasNoTurn pass.old }
    requires numbered { 1 ≤ number pass.old }
    requires left { IfSome left (ShowsView (fixed_of ⟦<LeastState as Kept>⟧.fixed desk.now)
        (seen pass.old)) }
    ensures here { IsOf ⟦<LeastState as Kept>⟧.fixed desk.now pass.new }
    ensures free { HasNoTurn pass.new }
    ensures number { number pass.new ≡ number pass.old }
    ensures mine { mine pass.new ≡ mine pass.old }
    ensures entries { StartsWith (seen pass.new) (seen pass.old) }
    ensures some { IfSome result (ShowsView (fixed_of ⟦<LeastState as Kept>⟧.fixed desk.now)
        (seen pass.new)) }
    ensures none { IfNone result (HasEnded (seen pass.new)) }
    ensures follows { (k : Known) →
        IfSome left (FollowsKnown (fixed_of ⟦<LeastState as Kept>⟧.fixed desk.now) k) →
        IfSome result (FollowsKnown (fixed_of ⟦<LeastState as Kept>⟧.fixed desk.now) k) }
{
    match left {
        Some(view) => Some(view),
        None => look(rt, desk, pass),
    }
}
