//! Writing the record of a state.
ghost use Rattle.std.specs.Prelude.{◌≢◌, None, IfOk};
ghost use Rattle.rn_record.specs.RecordText.{IsFormat};
ghost use Rattle.rn_state_record.specs.Written.{IsRecordOf};

use rn_end_marking::live_part;
use rn_fire::SimState;
use rn_items::NoMemory;
use rn_record::write_run;
use std::alloc::Global;

/// The record of a state whose log has ended: the lines of its firings and of its end, and the marks
/// of what is live then. In format 2 a line `run 2` stands first, and equal tokens of a mark are
/// counted.
///
/// ```text
/// 1 w1 main[1].t x=5
/// end dead
/// main[1].q []
/// ```
pub fn write_record(alloc: Global, state: &SimState, format: u32) -> Result<Vec<u8>, NoMemory>
    requires ended { state.now.ended ≢ None }
    requires format { IsFormat format }
    ensures { IfOk result (λ text. IsRecordOf format state.now text.items) }
{
    let system = state.system();
    let table = state.table();
    let marks = live_part(alloc, system, table)?;
    write_run(alloc, system, format, state.entries(), marks.as_slice())
}
