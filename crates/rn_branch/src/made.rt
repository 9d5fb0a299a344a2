//! The binding that is made of what was decided. Where nothing is left, each binding that follows
//! has just the nodes that were entered and the values that are forced. So it is the only one, and
//! where a variable isn't forced there is none (`docs/SEARCH.md`, 'Why it misses nothing').
ghost use Rattle.std.specs.Prelude.{◌≡◌, ◌<◌, IfOk, IfSome, IfNone, OnOk, MatchOption, All, length};
ghost use Rattle.std.specs.List.Sorted.{IsPermutation, IsSorted};
ghost use Rattle.rn_model.specs.Order.{node_cmp};
ghost use Rattle.rn_model.specs.Systems.{net_at};
ghost use Rattle.rn_model.specs.declared.binding.Binding.{Binding as Bound};
ghost use Rattle.rn_search.specs.Sought.{Leads};
ghost use Rattle.rn_search.specs.Ending.{IsMadeOf};
ghost use Rattle.rn_looking.specs.Branches.{IsBranchOf};
ghost use Rattle.rn_branch.specs.GoingOn.{IsAtEnd};
ghost use Rattle.rn_looking.specs.Forced.{IsVarForcedIn};
ghost use Rattle.rn_branch.specs.Making.{AreAllForced, AreMadeNodes, AreValues, IsForcedAt};
ghost use Rattle.rn_branch.specs.Making.{IsMadeNode};

use rn_growing::{Decision, Growing, Head};
use rn_looking::transition_in;
use rn_model::{Binding, Node, Nodes, System};
use rn_search::Problem;
use rn_value::{NoMemory, Path, Vals, Value, copy_inst};
use std::alloc::Global;

// The values to which these variables of a node are forced, or `None` where one isn't.
fn values_of(
    alloc: Global,
    growing: &Growing<'_>,
    path: &[u32],
    vars: &[u32],
) -> Result<Option<Vec<Value>>, NoMemory>
    ensures { IfOk result (λ values. MatchOption values
        (¬ All (IsVarForcedIn growing.now path.now) vars.now)
        (λ vs. AreValues growing.now path.now vars.now vs.items)) }
{
    let mut values = Vec::with_capacity(alloc, vars.len())?;
    for x in vars {
        let Some(value) = growing.value(alloc, path, *x)? else {
            return Ok(None);
        };
        values.push(value)?;
    }
    Ok(Some(values))
}

// The node that was entered, with its values.
fn node_of(
    alloc: Global,
    system: &System,
    growing: &Growing<'_>,
    head: &Head,
) -> Result<Option<Node>, NoMemory>
    requires same { growing.now.system ≡ system.now }
    requires net { head.now.net < length system.now.nets }
    requires transition { head.now.transition < length
        (net_at system.now head.now.net).transitions }
    ensures { IfOk result (λ node. MatchOption node (¬ IsForcedAt growing.now head.now)
        (λ n. IsMadeNode growing.now head.now n)) }
{
    let transition = transition_in(system, head);
    let vars = transition.vars.as_slice();
    let Some(values) = values_of(alloc, growing, head.path.as_slice(), vars)? else {
        return Ok(None);
    };
    let path = Path::from_vec(Vec::from_slice(alloc, head.path.as_slice())?);
    let inst = copy_inst(alloc, &head.inst)?;
    Ok(Some(Node {
        path,
        inst,
        net: head.net,
        transition: head.transition,
        values: Vals::from_vec(values),
    }))
}

// All nodes that were entered, in the order of the decisions.
fn nodes_of(
    alloc: Global,
    problem: &Problem<'_>,
    growing: &Growing<'_>,
) -> Result<Option<Vec<Node>>, NoMemory>
    requires { IsBranchOf problem.now growing.now }
    ensures { IfOk result (λ nodes. MatchOption nodes (¬ AreAllForced growing.now)
        (λ ns. AreMadeNodes growing.now growing.now.decisions ns.items)) }
{
    let mut nodes = Vec::new(alloc);
    for decision in growing.decisions() {
        if let Decision::Entered(head, _) = decision {
            let Some(node) = node_of(alloc, problem.system(), growing, head)? else {
                return Ok(None);
            };
            nodes.push(node)?;
        }
    }
    Ok(Some(nodes))
}

// Sorts nodes by their paths first.
fn sort_nodes(nodes: &mut Vec<Node>) -> Result<(), NoMemory>
    ensures sorted { OnOk result (IsSorted node_cmp nodes.new.items) }
    ensures same { IsPermutation nodes.old.items nodes.new.items }
{
    nodes.sort()?;
    Ok(())
}

/// The binding of the nodes that were entered, in the order of their paths, with the values to
/// which their variables are forced. `None` where one isn't forced.
pub(crate) fn binding_of(
    alloc: Global,
    problem: &Problem<'_>,
    growing: &Growing<'_>,
) -> Result<Option<Binding>, NoMemory>
    requires branch { IsBranchOf problem.now growing.now }
    requires ends { IsAtEnd problem.now growing.now }
    ensures made { IfOk result (λ binding. IfSome binding
        (λ b. IsMadeOf problem.now.system growing.now.decisions b)) }
    ensures none { IfOk result (λ binding. IfNone binding
        ((b : Bound) → ¬ Leads problem.now growing.now.decisions b)) }
{
    let Some(mut nodes) = nodes_of(alloc, problem, growing)? else {
        return Ok(None);
    };
    sort_nodes(&mut nodes)?;
    Ok(Some(Binding {
        nodes: Nodes::from_vec(nodes),
    }))
}
