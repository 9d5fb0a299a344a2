//! Dropping what isn't live at the end.
ghost use Rattle.std.specs.Prelude.{OnOk};
ghost use Rattle.rn_worker.specs.Ends.{KeepsJustLive};
ghost use Rattle.rn_worker.specs.link.Seen.{KeepsLog};

use rn_fire::SimState;
use rn_items::NoMemory;
use rn_live::garbage;
use std::alloc::Global;

/// Drops the instances that aren't live.
pub fn drop_dead(alloc: Global, state: &mut SimState) -> Result<(), NoMemory>
    ensures kept { KeepsLog state.old state.new }
    ensures dropped { OnOk result (KeepsJustLive state.new) }
{
    let dead = garbage(alloc, state.system(), state.table())?;
    state.sweep(dead.as_slice());
    Ok(())
}
