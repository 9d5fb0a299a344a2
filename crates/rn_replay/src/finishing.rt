//! The rest of a replay.
ghost use Rattle.std.specs.Prelude.{◌↔◌, length, IsTrue};
ghost use Rattle.rn_model.specs.Enabling.{DeadAt};
ghost use Rattle.rn_replay.specs.link.Parts.{HasMarks};
ghost use Rattle.rn_replay.specs.Replays.{IsUnsearched, Replays};

use crate::fault::ReplayFault;
use crate::firing::next_number;
use crate::marks::are_marks;
use rn_fire::SimState;
use rn_model::Told;
use std::alloc::Global;

/// A state that has ended, where the marks that are told are those of what is live in it.
pub(crate) fn with_marks(
    alloc: Global,
    state: SimState,
    number: u32,
    told: &Told,
) -> Result<SimState, ReplayFault>
    ensures { HasMarks state number told.now result }
{
    let fine = are_marks(alloc, &state, told.marks.as_slice())?;
    if !fine {
        return Err(ReplayFault::V5(number));
    }
    Ok(state)
}

/// Replays the end of what is told as dead, from the state that `begin_replay` answered. `is_dead`
/// says whether no binding is enabled at the state's table.
pub fn finish_replay(
    alloc: Global,
    state: SimState,
    told: &Told,
    is_dead: bool,
) -> Result<SimState, ReplayFault>
    requires unsearched { IsUnsearched told.now state }
    requires dead { IsTrue is_dead
        ↔ DeadAt state.setup.system state.table.marking state.setup.options.depth }
    ensures { Replays state.setup.system state.setup.options told.now result }
{
    let mut state = state;
    let number = next_number(&state);
    if !is_dead {
        return Err(ReplayFault::V4(number));
    }
    let seen = state.length();
    state.commit_none(seen);
    with_marks(alloc, state, number, told)
}
