//! Whether the instances that the nodes of a binding name are made.
ghost use Rattle.std.specs.Prelude.{◌≡◌, ◌++◌, OnOk, option_map, map};
ghost use Rattle.rn_model.specs.Systems.{transition_at};
ghost use Rattle.rn_lookup.specs.Found.{node_is_called};
ghost use Rattle.rn_lines.specs.link.NodeSeen.{node};
ghost use Rattle.rn_record_reader.specs.Called.{nets_by, nets_made, count_of_called, late_refusal};
ghost use Rattle.rn_record_reader.specs.Called.{nodes_fault};
ghost use Rattle.rn_record_reader.specs.link.CalledAhead.{bad_at};
ghost use Rattle.rn_record_reader.specs.link.NodesAhead.{placed, stop};

use crate::nodes::{NodesEnd, NodesRead, PlacedNode};
use rn_lines::ReadNode;
use rn_lookup::{Refusal, node_is_called};
use rn_model::{Creation, System, transition_at};
use rn_value::NoMemory;

/// A bad line: how many lines of its entry are before it, and why it is refused.
#[derive(Clone, Copy, Debug)]
pub(crate) struct BadLine {
    pub(crate) before: usize,
    pub(crate) refusal: Refusal,
}

fn push_nets(creations: &[Creation], made: &mut Vec<u32>) -> Result<(), NoMemory>
    ensures { OnOk result (made.new.items ≡ made.old.items ++ map (λ c. c.net) creations.now) }
{
    for creation in creations {
        made.push(creation.net)?;
    }
    Ok(())
}

fn push_by(system: &System, x: &PlacedNode<'_>, made: &mut Vec<u32>) -> Result<(), NoMemory>
    ensures { OnOk result (made.new.items ≡ made.old.items ++ nets_by system.now (placed x.now)) }
{
    if let Some(transition) = transition_at(system, x.found.net, x.found.transition) {
        push_nets(transition.creations.as_slice(), made)?;
    }
    Ok(())
}

/// Adds the nets of the instances that nodes make.
pub(crate) fn push_made(
    system: &System,
    nodes: &[PlacedNode<'_>],
    made: &mut Vec<u32>,
) -> Result<(), NoMemory>
    ensures { OnOk result (made.new.items
        ≡ made.old.items ++ nets_made system.now (map placed nodes.now)) }
{
    for x in nodes {
        push_by(system, x, made)?;
    }
    Ok(())
}

fn count_of_called(system: &System, made: &[u32], nodes: &[PlacedNode<'_>]) -> usize
    ensures { result ≡ count_of_called system.now made.now (map placed nodes.now) }
{
    for (i, x) in nodes.iter().enumerate() {
        if !node_is_called(system, made, &x.node) {
            return i;
        }
    }
    nodes.len()
}

fn late_refusal(system: &System, made: &[u32], read: &ReadNode<'_>) -> Refusal
    ensures { result ≡ late_refusal system.now made.now (node read.now) }
{
    if node_is_called(system, made, read) {
        Refusal::Step
    } else {
        Refusal::Name
    }
}

/// The first line of a binding that is bad. `made` has the nets of the instances made, those of the
/// nodes that were read among them.
pub(crate) fn nodes_fault(system: &System, made: &[u32], read: &NodesRead<'_>) -> Option<BadLine>
    ensures { option_map bad_at result ≡ nodes_fault system.now made.now
        (map placed read.now.nodes.items, stop read.now.end) }
{
    let count = read.nodes.len();
    let before = count_of_called(system, made, read.nodes.as_slice());
    if before < count {
        return Some(BadLine {
            before,
            refusal: Refusal::Name,
        });
    }
    let refusal = match &read.end {
        NodesEnd::Whole(_) => return None,
        NodesEnd::Late(node) => late_refusal(system, made, node),
        NodesEnd::Refused(refusal) => *refusal,
    };
    Some(BadLine {
        before: count,
        refusal,
    })
}
