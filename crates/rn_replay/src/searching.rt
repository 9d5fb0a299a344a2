//! A whole replay, with the search that an end without an enabled binding needs.
ghost use Rattle.std.specs.Prelude.{◌≡◌, ◌↔◌, IfOk, IsTrue};
ghost use Rattle.rn_model.specs.Good.{Good, IsInLimits};
ghost use Rattle.rn_model.specs.Enabling.{DeadAt};
ghost use Rattle.rn_replay.specs.Replays.{IsWhole, Replays, IsUnsearched};

use crate::beginning::begin_replay;
use crate::begun::BegunReplay;
use crate::fault::ReplayFault;
use crate::finishing::finish_replay;
use rn_channel::Uplinks;
use rn_finder::find;
use rn_fire::SimState;
use rn_items::NoMemory;
use rn_model::{Options, System, Told};
use std::alloc::Global;
use std::sync::Arc;

// Whether no binding is enabled at the table of a state.
fn is_dead(alloc: Global, state: &SimState, depth: u32) -> Result<bool, NoMemory>
    ensures { IfOk result (λ dead. IsTrue dead
        ↔ DeadAt state.now.setup.system state.now.table.marking depth) }
{
    // For its clause: it is a state of a run (`IsState`), so its tokens fit their places.
    let _length = state.length();
    let system = state.system();
    let table = state.table();
    let uplinks = Uplinks::new(alloc, system)?;
    let found = find(alloc, system, &uplinks, table, depth, 0)?;
    Ok(found.is_none())
}

// Goes on from a state where the search decides.
fn finished(
    alloc: Global,
    state: SimState,
    told: &Told,
    depth: u32,
) -> Result<SimState, ReplayFault>
    requires unsearched { IsUnsearched told.now state }
    requires depth { depth ≡ state.setup.options.depth }
    ensures { Replays state.setup.system state.setup.options told.now result }
{
    let dead = is_dead(alloc, &state, depth)?;
    finish_replay(alloc, state, told, dead)
}

/// Replays what is told: the state at its end, whose entries are those told. Where it isn't true, the
/// first entry that isn't is named, as `begin_replay` says.
pub fn replay(
    alloc: Global,
    system: Arc<System>,
    options: Options,
    told: &Told,
) -> Result<SimState, ReplayFault>
    requires good { Good system.value }
    requires limits { IsInLimits options }
    requires whole { IsWhole told.now.entries }
    ensures { Replays system.value options told.now result }
{
    let begun = begin_replay(alloc, system, options, told)?;
    match begun {
        BegunReplay::Done(state) => Ok(state),
        BegunReplay::Dead(state) => finished(alloc, state, told, options.depth),
    }
}
