//! The values of a node's variables, lent.
ghost use Rattle.std.specs.Prelude.{◌≡◌};
ghost use Rattle.rn_model.specs.Bindings.{env_of};
ghost use Rattle.rn_calc.specs.link.NodeValues.{lent_env};

use crate::values::Values;
use rn_model::{Node, System, find_transition};
use rn_value::{InstRef, Value};

/// What the expressions of a node are read under: its instance, and its values, each beside the
/// variable of the same index. Nothing is copied, and there is no step.
#[derive(Clone, Copy)]
pub struct NodeValues<'a> {
    node: &'a Node,
    vars: &'a [u32],
}

impl<'a> NodeValues<'a> {
    /// The values of a node. Where the system hasn't its transition, no variable has one.
    pub fn new(system: &'a System, node: &'a Node) -> NodeValues<'a>
        ensures { lent_env result ≡ env_of system.now node.now }
    {
        let vars = match find_transition(system, node) {
            Some(transition) => transition.vars.as_slice(),
            None => &[],
        };
        NodeValues { node, vars }
    }
}

impl Values for NodeValues<'_> {
    ghost use Rattle.rn_calc.specs.link.NodeValues.{lent_env};

    ghost env = { lent_env };

    fn this(&self) -> &InstRef {
        &self.node.inst
    }

    fn step(&self) -> Option<u64> {
        None
    }

    fn value(&self, x: u32) -> Option<&Value> {
        for (i, var) in self.vars.iter().enumerate() {
            if *var == x {
                return self.node.values.get(i);
            }
        }
        None
    }
}
