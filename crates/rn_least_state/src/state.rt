//! The state of a least run.
ghost use Rattle.std.specs.Prelude.{◌≡◌, ◌≤◌, ◌↔◌, ℕ, [], None, length, take, drop, IfOk, Contains};
ghost use Rattle.rn_model.specs.Good.{Good, IsInLimits};
ghost use Rattle.rn_model.specs.Markings.{initial_marking};
ghost use Rattle.rn_model.specs.Runs.{end_of};
ghost use Rattle.rn_reach.specs.Changes.{MayChange};
ghost use Rattle.rn_reach.specs.Reach.{DifferAtMostIn};
ghost use Rattle.rn_fire.specs.States.{State, end_marking};
ghost use Rattle.rn_least_state.specs.LeastStates.{HasLeastLog};

use rn_fire::{SimState, open_state};
use rn_items::NoMemory;
use rn_model::{Options, System};
use std::alloc::Global;
use std::marker::Model;
use std::sync::Arc;

/// A state whose log is a least log: the binding of each firing is the first that was enabled there, and
/// so is that of a fault.
#[derive(Drop)]
pub struct LeastState {
    pub(crate) state: SimState,
}

impl Model for LeastState {
    ghost use Rattle.std.specs.Coded.{codes};
    ghost use Rattle.rn_value.specs.contracts.value.Value as value;
    ghost use Rattle.rn_value.specs.contracts.value.Kind as kind;
    ghost use Rattle.rn_model.specs.contracts.expr.Expr as expr;
    ghost use Rattle.rn_model.specs.contracts.expr.Cond as cond;
    ghost use Rattle.rn_table.specs.Tables.{kept_code};
    ghost use Rattle.rn_fire.specs.States.{State};
    ghost use Rattle.rn_least_state.specs.LeastStates.{HasLeastLog};

    ghost Value = { State };

    ghost coded = { Prim.hlevel (
      codes,
      kept_code,
      value.the_row.coded,
      kind.the_row.coded,
      expr.the_row.coded,
      cond.the_row.coded,
    ) };

    ghost view = { λ s. s.state };

    ghost invariant = { λ s. HasLeastLog s.state };
}

/// The state in which a least run starts: an empty log and the initial table. It takes room for the
/// entries of a longest run and for its end.
pub fn open_least(
    alloc: Global,
    system: Arc<System>,
    options: Options,
) -> Result<LeastState, NoMemory>
    requires good { Good system.value }
    requires limits { IsInLimits options }
    ensures state { IfOk result (λ s. s ≡ record {
      setup = record { system = system.value; options = options };
      fired = [];
      ended = None;
      table = s.table;
    }) }
    ensures table { IfOk result (λ s. s.table.marking ≡ initial_marking system.value) }
{
    let state = open_state(alloc, system, options)?;
    Ok(LeastState { state })
}

impl LeastState {
    /// The state by itself.
    pub fn base(&self) -> &SimState
        ensures state { result.now ≡ self.now }
        ensures least { HasLeastLog self.now }
    {
        &self.state
    }

    /// The state by itself.
    pub fn into_state(self) -> SimState
        ensures state { result ≡ self }
        ensures least { HasLeastLog self }
    {
        self.state
    }

    /// The instances that the firings after the first `seen` may have changed or made, as
    /// `SimState::changed_since` lists them.
    pub fn changed_since(&self, alloc: Global, seen: u64, next: u32) -> Result<Vec<u32>, NoMemory>
        requires seen { seen ≤ length self.now.fired }
        requires next { next ≡ (end_of self.now.setup.system (take seen self.now.fired)).next }
        ensures just { IfOk result (λ changed. (n : ℕ) → Contains changed.items n
            ↔ MayChange (drop seen self.now.fired) next (end_marking self.now).next n) }
        ensures differ { IfOk result (λ changed. DifferAtMostIn changed.items
            (end_of self.now.setup.system (take seen self.now.fired)) (end_marking self.now)) }
    {
        self.state.changed_since(alloc, seen, next)
    }
}
