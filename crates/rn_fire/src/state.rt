//! The state of a run.
ghost use Rattle.std.specs.Prelude.{◌≡◌, ◌↔◌, ◌≢◌, ◌≤◌, [], None, IfOk, IsTrue, length};
ghost use Rattle.rn_model.specs.Good.{Good, IsInLimits};
ghost use Rattle.rn_model.specs.Liveness.{Stands};
ghost use Rattle.rn_model.specs.Limits.{most_steps};
ghost use Rattle.rn_model.specs.Markings.{initial_marking};
ghost use Rattle.rn_model.specs.Runs.{Log};
ghost use Rattle.rn_table.specs.Tables.{IsTableOf};
ghost use Rattle.rn_fire.specs.States.{IsState, end_marking, logged};

use crate::nets::first_nets;
use crate::parts::first_room;
use rn_items::NoMemory;
use rn_live::LiveRoom;
use rn_model::{Entry, Options, System};
use rn_table::Table;
use std::alloc::Global;
use std::marker::Model;
use std::sync::Arc;

/// A system with its options, the log of its run so far, and the table at the log's end.
///
/// The table may have dropped instances that aren't live. The net of each instance that was made is
/// kept, and there is room in which the live ones are marked.
#[derive(Drop)]
pub struct SimState {
    pub(crate) system: Arc<System>,
    pub(crate) options: Options,
    pub(crate) entries: Vec<Entry>,
    pub(crate) table: Table,
    pub(crate) nets: Vec<u32>,
    pub(crate) live: LiveRoom,
}

impl Model for SimState {
    ghost use Rattle.std.specs.Coded.{codes};
    ghost use Rattle.std.specs.Prelude.{vec_capacity};
    ghost use Rattle.rn_value.specs.contracts.value.Value as value;
    ghost use Rattle.rn_value.specs.contracts.value.Kind as kind;
    ghost use Rattle.rn_model.specs.contracts.expr.Expr as expr;
    ghost use Rattle.rn_model.specs.contracts.expr.Cond as cond;
    ghost use Rattle.rn_table.specs.Tables.{kept_code};
    ghost use Rattle.rn_fire.specs.States.{State};
    ghost use Rattle.rn_fire.specs.link.States.{state_of, KeepsState};

    ghost Value = { State };

    ghost coded = { Prim.hlevel (
      codes,
      kept_code,
      value.the_row.coded,
      kind.the_row.coded,
      expr.the_row.coded,
      cond.the_row.coded,
    ) };

    ghost view = { λ s. state_of (record { system = s.system.value; options = s.options })
        s.entries.items s.table };

    ghost invariant = { λ s. KeepsState (record { system = s.system.value; options = s.options })
        s.entries.items (vec_capacity s.entries) s.table s.nets.items s.live };
}

/// The state in which a run starts: an empty log and the initial table. It takes room for the
/// entries of a longest run and for its end.
pub fn open_state(
    alloc: Global,
    system: Arc<System>,
    options: Options,
) -> Result<SimState, NoMemory>
    requires good { Good system.value }
    requires limits { IsInLimits options }
    ensures state { IfOk result (λ s. s ≡ record {
      setup = record { system = system.value; options = options };
      fired = [];
      ended = None;
      table = s.table;
    }) }
    ensures table { IfOk result (λ s. s.table.marking ≡ initial_marking system.value) }
{
    let entries = Vec::with_capacity(alloc, options.steps as usize + 1)?;
    let table = Table::new(alloc, &system)?;
    let nets = first_nets(alloc, &system)?;
    let live = first_room(alloc, &system, table.next())?;
    Ok(SimState {
        system,
        options,
        entries,
        table,
        nets,
        live,
    })
}

impl SimState {
    /// The system that is run.
    pub fn system(&self) -> &System
        ensures system { result.now ≡ self.now.setup.system }
        ensures good { Good result.now }
    {
        &self.system
    }

    /// The kept instances at the end of the log: all live ones, each with its net and tokens.
    pub fn table(&self) -> &Table
        ensures table { result.now ≡ self.now.table }
        ensures stands { Stands self.now.setup.system result.now.marking (end_marking self.now) }
        ensures of_system { IsTableOf self.now.setup.system result.now }
    {
        &self.table
    }

    /// The entries of the log, the oldest first.
    pub fn entries(&self) -> &[Entry]
        ensures entries { result.now ≡ logged self.now }
        ensures log { Log self.now.setup.system self.now.setup.options self.now.fired
            self.now.ended }
    {
        self.entries.as_slice()
    }

    /// How many entries the log has, its end counted.
    pub fn length(&self) -> u64
        ensures length { result ≡ length (logged self.now) }
        ensures within { length self.now.fired ≤ most_steps }
        ensures state { IsState self.now }
    {
        self.entries.len() as u64
    }

    /// Whether the log has an end.
    pub fn has_ended(&self) -> bool
        ensures ended { IsTrue result ↔ (self.now.ended ≢ None) }
        ensures state { IsState self.now }
    {
        matches!(self.entries.last(), Some(Entry::End(_)))
    }
}
