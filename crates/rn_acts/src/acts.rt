//! What the actions of a firing give.
ghost use Rattle.std.specs.Prelude.{◌≡◌, ◌≤◌, All, IfOk, IfSome, Some, option_map};
ghost use Rattle.rn_model.specs.Bindings.{IsNodeOf};
ghost use Rattle.rn_model.specs.Firing.{Effects, all_effects};
ghost use Rattle.rn_model.specs.Good.{Good};
ghost use Rattle.rn_model.specs.Limits.{greatest_step};
ghost use Rattle.rn_calc.specs.OwnKinds.{HaveOwnKinds};
ghost use Rattle.rn_acts.specs.link.Acting.{if_done};
ghost use Rattle.rn_acts.specs.Acted.{AreOfArcs, ArePut};
ghost use Rattle.rn_acts.specs.link.Acted.{nothing, with_node, with_effects};

use crate::acting::Acting;
use crate::outputs::put_outputs;
use rn_arcs::append;
use rn_items::{Items, NoMemory};
use rn_model::{Binding, Node, System, transition_of};
use rn_table::Rows;
use rn_value::Vals;
use std::alloc::Global;

/// What the actions of a firing print, and what its arcs put after them, in the order of nodes. Each
/// arc has a row of its own, and none where it puts nothing.
#[derive(Debug, Drop)]
pub struct Acted {
    pub outs: Vals,
    pub put: Rows,
}

/// Adds what a node gives. The answer is whether its actions and outputs have values; what was added
/// counts only where it is true.
fn add_node(
    alloc: Global,
    acted: &mut Acted,
    system: &System,
    node: &Node,
    step: u64,
) -> Result<bool, NoMemory>
    requires good { Good system.now }
    requires own { IsNodeOf system.now node.now }
    requires kinds { HaveOwnKinds system.now node.now }
    requires step { step ≤ greatest_step }
    ensures { IfOk result (λ done. with_node system.now step acted.old node.now
        ≡ if_done done acted.new) }
{
    let transition = transition_of(system, node);
    let mut acting = Acting::new(alloc, system, node, step);
    if !acting.take_all(alloc, transition.actions.as_slice())? {
        return Ok(false);
    }
    if !put_outputs(alloc, &acting, transition, &mut acted.put)? {
        return Ok(false);
    }
    append(&mut acted.outs, acting.into_outs())?;
    Ok(true)
}

/// What these nodes give, one after another.
pub(crate) fn act_on(
    alloc: Global,
    system: &System,
    nodes: &[Node],
    step: u64,
) -> Result<Option<Acted>, NoMemory>
    requires good { Good system.now }
    requires nodes { All (IsNodeOf system.now) nodes.now }
    requires kinds { All (HaveOwnKinds system.now) nodes.now }
    requires step { step ≤ greatest_step }
    ensures { IfOk result (λ acted. acted
        ≡ option_map (with_effects system.now nothing) (all_effects system.now step nodes.now)) }
{
    let mut acted = Acted {
        outs: Items::new(alloc),
        put: Items::new(alloc),
    };
    for node in nodes {
        if !add_node(alloc, &mut acted, system, node, step)? {
            return Ok(None);
        }
    }
    Ok(Some(acted))
}

/// What the actions of a firing with this number give, for a binding whose new instances have their
/// numbers. Nothing where an action has no value, or an output that holds an action variable.
///
/// Each action and each output is evaluated once.
pub fn act(
    alloc: Global,
    system: &System,
    binding: &Binding,
    step: u64,
) -> Result<Option<Acted>, NoMemory>
    requires good { Good system.now }
    requires nodes { All (IsNodeOf system.now) binding.now.nodes }
    requires kinds { All (HaveOwnKinds system.now) binding.now.nodes }
    requires step { step ≤ greatest_step }
    ensures outs { IfOk result (λ acted. option_map (λ a. a.outs) acted
        ≡ option_map (λ fx. fx.outs) (all_effects system.now step binding.now.nodes)) }
    ensures put { IfOk result (λ acted. IfSome acted (λ a. (effects : Effects) →
        all_effects system.now step binding.now.nodes ≡ Some effects →
        ArePut system.now effects a.put)) }
    ensures arcs { IfOk result (λ acted. IfSome acted (λ a.
        AreOfArcs system.now binding.now.nodes a.put)) }
{
    act_on(alloc, system, binding.nodes.as_slice(), step)
}
