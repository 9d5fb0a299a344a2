//! The marks at the end of a replay.
ghost use Rattle.std.specs.Prelude.{◌≡◌, ◌↔◌, IsTrue, IfOk};
ghost use Rattle.rn_model.specs.Liveness.{LivePart};
ghost use Rattle.rn_fire.specs.States.{end_marking};

use rn_end_marking::live_part;
use rn_fire::SimState;
use rn_items::NoMemory;
use rn_model::{MarkLine, same_repeats};
use std::alloc::Global;

/// Whether two lines are the same.
fn same_line(a: &MarkLine, b: &MarkLine) -> bool
    ensures { IsTrue result ↔ (a.now ≡ b.now) }
{
    if a.inst != b.inst {
        return false;
    }
    if a.net != b.net {
        return false;
    }
    if a.place != b.place {
        return false;
    }
    same_repeats(&a.values, &b.values)
}

/// Whether two lists of lines are the same.
fn same_lines(a: &[MarkLine], b: &[MarkLine]) -> bool
    ensures { IsTrue result ↔ (a.now ≡ b.now) }
{
    if a.len() != b.len() {
        return false;
    }
    for i in 0..a.len() {
        if !same_line(&a[i], &b[i]) {
            return false;
        }
    }
    true
}

/// Whether marks are those of what is live in a state.
pub(crate) fn are_marks(
    alloc: Global,
    state: &SimState,
    marks: &[MarkLine],
) -> Result<bool, NoMemory>
    ensures { IfOk result (λ yes. IsTrue yes
        ↔ LivePart state.now.setup.system (end_marking state.now) marks.now) }
{
    let system = state.system();
    let table = state.table();
    let lines = live_part(alloc, system, table)?;
    Ok(same_lines(lines.as_slice(), marks))
}
