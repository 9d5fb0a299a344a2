//! A replay up to the search.
ghost use Rattle.rn_model.specs.Good.{Good, IsInLimits};
ghost use Rattle.rn_replay.specs.link.Parts.{IsDoneWith};
ghost use Rattle.rn_replay.specs.Replays.{Begins, IsWhole};

use crate::begun::BegunReplay;
use crate::ending::{EndTried, told_end, try_end};
use crate::fault::ReplayFault;
use crate::finishing::with_marks;
use crate::firing::next_number;
use crate::redoing::redo_all;
use rn_fire::SimState;
use rn_model::{Options, System, Told};
use std::alloc::Global;
use std::sync::Arc;

/// A replay that is done, where the marks that are told are those of the state.
fn done_with(
    alloc: Global,
    state: SimState,
    number: u32,
    told: &Told,
) -> Result<BegunReplay, ReplayFault>
    ensures { IsDoneWith state number told.now result }
{
    let marked = with_marks(alloc, state, number, told)?;
    Ok(BegunReplay::Done(marked))
}

/// Replays what is told, up to the search for an enabled binding that an end without one needs.
///
/// Each firing is looked at in order. It stands within the step limit (else `V4`); its binding is
/// sound (else `V1`); the marking meets it (else `V2`); and its firing is defined, and prints what is
/// told (else `V3`). The end is then true (else `V4`), and at last the marks are those of what is live
/// then (else `V5`).
///
/// Where it is told that nothing is enabled at the end, below the step limit, the answer is the state
/// before that end. `finish_replay` goes on from there.
pub fn begin_replay(
    alloc: Global,
    system: Arc<System>,
    options: Options,
    told: &Told,
) -> Result<BegunReplay, ReplayFault>
    requires good { Good system.value }
    requires limits { IsInLimits options }
    requires whole { IsWhole told.now.entries }
    ensures { Begins system.value options told.now result }
{
    let entries = told.entries.as_slice();
    let mut state = redo_all(alloc, system, &options, entries)?;
    let number = next_number(&state);
    let reason = told_end(entries);
    let tried = try_end(alloc, &mut state, &options, reason)?;
    match tried {
        EndTried::Unsearched => Ok(BegunReplay::Dead(state)),
        EndTried::Untrue => Err(ReplayFault::V4(number)),
        EndTried::Ended => done_with(alloc, state, number, told),
    }
}
