//! A node after some of its actions.
ghost use Rattle.std.specs.Prelude.{◌≡◌, ◌≤◌, IfOk};
ghost use Rattle.rn_model.specs.Firing.{acts_before, after_actions};
ghost use Rattle.rn_model.specs.ExpressionLaws.{OperandsAreFit};
ghost use Rattle.rn_model.specs.Good.{action_expr};
ghost use Rattle.rn_model.specs.Limits.{greatest_step};

use rn_calc::{NodeValues, Values, VarVals, evaluate};
use rn_items::{Items, NoMemory};
use rn_model::{Action, Node, System};
use rn_value::{InstRef, Vals, Value};
use std::alloc::Global;

/// What the expressions of a node are read under after some of its actions, and what these have
/// printed. `set` has the variables that were set, in the order of the actions.
#[derive(Drop)]
pub(crate) struct Acting<'a> {
    known: NodeValues<'a>,
    step: u64,
    set: VarVals,
    outs: Vals,
    ghost small: { step ≤ greatest_step },
}

impl<'a> Acting<'a> {
    ghost use Rattle.rn_acts.specs.link.Acting.{acts_of, action_of, env_acting, if_done};
    ghost use Rattle.rn_acts.specs.link.Acting.{AreFitActions};

    /// A node before its actions, in the firing with this number.
    pub(crate) fn new(alloc: Global, system: &'a System, node: &'a Node, step: u64) -> Acting<'a>
        requires { step ≤ greatest_step }
        ensures { acts_of result ≡ acts_before system.now step node.now }
    {
        Acting {
            known: NodeValues::new(system, node),
            step,
            set: Items::new(alloc),
            outs: Items::new(alloc),
        }
    }

    /// Takes one action, where its expression has a value.
    fn take(&mut self, alloc: Global, action: &Action) -> Result<bool, NoMemory>
        requires fit { OperandsAreFit (env_acting self.old) (action_expr action.now) }
        ensures { IfOk result (λ done. action_of action.now (acts_of self.old)
            ≡ if_done done (acts_of self.new)) }
    {
        match action {
            Action::Set { var, value } => match evaluate(alloc, value, &*self)? {
                Some(value) => {
                    self.set.push((*var, value))?;
                    Ok(true)
                }
                None => Ok(false),
            },
            Action::Print(expr) => match evaluate(alloc, expr, &*self)? {
                Some(value) => {
                    self.outs.push(value)?;
                    Ok(true)
                }
                None => Ok(false),
            },
        }
    }

    /// Takes one action after another, as long as they have values.
    pub(crate) fn take_all(&mut self, alloc: Global, actions: &[Action]) -> Result<bool, NoMemory>
        requires fit { AreFitActions actions.now (acts_of self.old) }
        ensures { IfOk result (λ done. after_actions actions.now (acts_of self.old)
            ≡ if_done done (acts_of self.new)) }
    {
        for action in actions {
            if !self.take(alloc, action)? {
                return Ok(false);
            }
        }
        Ok(true)
    }

    /// What was printed.
    pub(crate) fn into_outs(self) -> Vals
        ensures { result ≡ (acts_of self.entry).outs }
    {
        self.outs
    }
}

impl Values for Acting<'_> {
    ghost use Rattle.rn_acts.specs.link.Acting.{env_acting};

    ghost env = { env_acting };

    fn this(&self) -> &InstRef {
        self.known.this()
    }

    fn step(&self) -> Option<u64> {
        Some(self.step)
    }

    fn value(&self, x: u32) -> Option<&Value> {
        let set = self.set.as_slice();
        for i in (0..set.len()).rev() {
            if set[i].0 == x {
                return Some(&set[i].1);
            }
        }
        self.known.value(x)
    }
}
