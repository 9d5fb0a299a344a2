//! Which outputs await an action.
ghost use Rattle.std.specs.Prelude.{◌≡◌};
ghost use Rattle.rn_model.specs.Systems.{awaits_action};

use rn_calc::holds_action_var;
use rn_model::{NetArc, Transition, is_output};

/// Whether an arc is an output that holds an action variable.
pub fn awaits_action(transition: &Transition, arc: &NetArc) -> bool
    ensures { result ≡ awaits_action transition.now arc.now }
{
    is_output(arc.kind) && holds_action_var(transition, &arc.inscription)
}
