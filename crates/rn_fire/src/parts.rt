//! What a record of a run is written from.
ghost use Rattle.std.specs.Prelude.{◌≡◌, IfOk};
ghost use Rattle.rn_model.specs.Good.{Good};
ghost use Rattle.rn_model.specs.Liveness.{Stands};
ghost use Rattle.rn_model.specs.Runs.{Log};
ghost use Rattle.rn_table.specs.Tables.{IsTableOf};
ghost use Rattle.rn_fire.specs.Nets.{nets_logged};
ghost use Rattle.rn_fire.specs.Parts.{HoldsLive};
ghost use Rattle.rn_fire.specs.States.{end_marking, logged};

use crate::state::SimState;
use rn_items::NoMemory;
use rn_live::LiveRoom;
use rn_model::{Entry, System};
use rn_table::Table;
use std::alloc::Global;
use std::sync::Arc;

/// What a record of the run is written from.
#[derive(Drop)]
pub struct Parts {
    pub system: Arc<System>,
    pub entries: Vec<Entry>,
    pub table: Table,
    /// The net of each instance that was made, from the one with number 1.
    pub nets: Vec<u32>,
    /// Room in which the live instances of the table are marked.
    pub live: LiveRoom,
}

/// Room in which live instances below a number are marked.
pub(crate) fn first_room(alloc: Global, system: &System, next: u32) -> Result<LiveRoom, NoMemory>
    ensures { IfOk result (λ live. HoldsLive system.now next live) }
{
    let mut live = LiveRoom::new(alloc, system)?;
    live.reserve(next)?;
    Ok(live)
}

impl SimState {
    /// The parts of a state that isn't needed any more. It takes no memory.
    pub fn into_parts(self) -> Parts
        ensures system { result.system.value ≡ self.setup.system }
        ensures good { Good result.system.value }
        ensures entries { result.entries.items ≡ logged self }
        ensures log { Log self.setup.system self.setup.options self.fired self.ended }
        ensures table { result.table ≡ self.table }
        ensures stands { Stands self.setup.system result.table.marking (end_marking self) }
        ensures of_system { IsTableOf self.setup.system result.table }
        ensures nets { result.nets.items ≡ nets_logged self }
        ensures live { HoldsLive self.setup.system result.table.marking.next result.live }
    {
        let SimState {
            system,
            options: _,
            entries,
            table,
            nets,
            live,
        } = self;
        Parts {
            system,
            entries,
            table,
            nets,
            live,
        }
    }
}
