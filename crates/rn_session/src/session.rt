//! A session: the state of a run that is stepped by hand, and what was before each of its entries.
ghost use Rattle.std.specs.Prelude.{◌≡◌, [], None, IfOk};
ghost use Rattle.rn_model.specs.Good.{Good, IsInLimits};
ghost use Rattle.rn_served.specs.Listed.{AreEnabled};
ghost use Rattle.rn_fire.specs.States.{State, end_marking};
ghost use Rattle.rn_session.specs.Sessions.{IsSession};

use rn_binding::Candidate;
use rn_channel::Uplinks;
use rn_finder::all_bindings;
use rn_fire::{SimState, open_state};
use rn_items::NoMemory;
use rn_model::{Options, System};
use rn_parted::PartedFirsts;
use rn_table::Table;
use std::alloc::Global;
use std::marker::Model;
use std::sync::Arc;

/// A run that is stepped by hand. Each of its entries can be taken back.
#[derive(Drop)]
pub struct Session {
    pub(crate) state: SimState,
    pub(crate) options: Options,
    pub(crate) uplinks: Uplinks,
    /// The table before each entry of the log.
    pub(crate) kept: Vec<Table>,
    /// What finds the first binding, and when it looked last, where no entry was taken back since.
    pub(crate) firsts: PartedFirsts,
    pub(crate) looked: Option<Looked>,
}

/// How many firings there were at a look for the first binding, and which number the next instance
/// was to get.
#[derive(Clone, Copy)]
pub(crate) struct Looked {
    pub seen: u64,
    pub next: u32,
}

impl Model for Session {
    ghost use Rattle.std.specs.Coded.{codes};
    ghost use Rattle.rn_value.specs.contracts.value.Value as value;
    ghost use Rattle.rn_value.specs.contracts.value.Kind as kind;
    ghost use Rattle.rn_model.specs.contracts.expr.Expr as expr;
    ghost use Rattle.rn_model.specs.contracts.expr.Cond as cond;
    ghost use Rattle.rn_table.specs.Tables.{kept_code};
    ghost use Rattle.rn_fire.specs.States.{State};
    ghost use Rattle.rn_session.specs.link.Keeping.{KeepsSession};

    ghost Value = { State };

    ghost coded = { Prim.hlevel (
      codes,
      kept_code,
      value.the_row.coded,
      kind.the_row.coded,
      expr.the_row.coded,
      cond.the_row.coded,
    ) };

    ghost view = { λ s. s.state };

    ghost invariant = { λ s. KeepsSession s.state s.options s.uplinks s.kept.items s.firsts s.looked };
}

/// A session with no entries. It takes room for the entries of a longest run and for its end.
pub fn open_session(
    alloc: Global,
    system: Arc<System>,
    options: Options,
) -> Result<Session, NoMemory>
    requires good { Good system.value }
    requires limits { IsInLimits options }
    ensures { IfOk result (λ s. s ≡ record {
      setup = record { system = system.value; options = options };
      fired = [];
      ended = None;
      table = s.table;
    }) }
{
    let state = open_state(alloc, system, options)?;
    let uplinks = Uplinks::new(alloc, state.system())?;
    // For its clause: it is a state of a run (`IsState`).
    let _length = state.length();
    Ok(Session {
        state,
        options,
        uplinks,
        kept: Vec::new(alloc),
        firsts: PartedFirsts::new(alloc),
        looked: None,
    })
}

impl Session {
    /// The state after the entries so far. All instances that were made are kept.
    pub fn state(&self) -> &SimState
        ensures state { result.now ≡ self.now }
        ensures session { IsSession self.now }
    {
        &self.state
    }

    /// Just the bindings that are enabled now, each once, in order.
    pub fn list(&self, alloc: Global) -> Result<Vec<Candidate>, NoMemory>
        ensures { IfOk result (λ found. AreEnabled self.now.setup.system (end_marking self.now)
            self.now.setup.options.depth found.items) }
    {
        // For its clause: it is a state of a run (`IsState`), so its tokens fit their places.
        let _length = self.state.length();
        let system = self.state.system();
        let table = self.state.table();
        all_bindings(alloc, system, &self.uplinks, table, self.options.depth)
    }
}
