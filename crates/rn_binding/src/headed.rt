//! A node beside its head.
ghost use Rattle.std.specs.Prelude.{◌≡◌, IfOk};
ghost use Rattle.rn_growing.specs.Decisions.{head_of};

use rn_growing::Head;
use rn_model::Node;
use rn_shared::Shared;
use rn_value::{NoMemory, Path, copy_inst};
use std::alloc::Global;
use std::marker::Model;

/// A node, and the same without its values, which is made once and then copied without its path.
/// Contracts see the node.
#[derive(Drop)]
pub(crate) struct Headed<'a> {
    node: &'a Node,
    head: Head,
}

impl<'a> Model for Headed<'a> {
    ghost use Rattle.std.specs.Prelude.{◌≡◌};
    ghost use Rattle.std.specs.Coded.{codes};
    ghost use Rattle.rn_value.specs.contracts.value.Value as value;
    ghost use Rattle.rn_model.specs.declared.binding.Node.{Node};
    ghost use Rattle.rn_growing.specs.Decisions.{head_of};

    ghost Value = { Node };

    ghost coded = { Prim.hlevel (codes, value.the_row.coded) };

    ghost view = { λ h. h.node.now };

    ghost invariant = { λ h. h.head ≡ head_of h.node.now };
}

impl<'a> Headed<'a> {
    pub(crate) fn new(alloc: Global, node: &'a Node) -> Result<Headed<'a>, NoMemory>
        ensures { IfOk result (λ headed. headed ≡ node.now) }
    {
        let head = head_of(alloc, node)?;
        Ok(Headed { node, head })
    }

    pub(crate) fn node(&self) -> &Node
        ensures { result.now ≡ self.now }
    {
        self.node
    }

    /// The node without its values.
    pub(crate) fn head(&self) -> &Head
        ensures { result.now ≡ head_of self.now }
    {
        &self.head
    }
}

// A node without its values.
fn head_of(alloc: Global, node: &Node) -> Result<Head, NoMemory>
    ensures { IfOk result (λ head. head ≡ head_of node.now) }
{
    let path = Path::from_vec(Vec::from_slice(alloc, node.path.as_slice())?);
    let path = Shared::new(alloc, path)?;
    let inst = copy_inst(alloc, &node.inst)?;
    Ok(Head {
        path,
        inst,
        net: node.net,
        transition: node.transition,
    })
}

/// Nodes beside their heads.
pub(crate) fn headed_of<'a>(alloc: Global, nodes: &'a [Node]) -> Result<Vec<Headed<'a>>, NoMemory>
    ensures { IfOk result (λ headed. headed.items ≡ nodes.now) }
{
    let mut headed = Vec::with_capacity(alloc, nodes.len())?;
    for i in 0..nodes.len() {
        headed.push(Headed::new(alloc, &nodes[i])?)?;
    }
    Ok(headed)
}
