//! Copies of bindings and of entries of a log.
ghost use Rattle.std.specs.Prelude.{◌≡◌, IfOk};

use crate::binding::{Binding, Node};
use crate::log::{Entry, Reason};
use rn_items::Items;
use rn_value::{NoMemory, copy_all, copy_inst};
use std::alloc::Global;

fn copy_node(alloc: Global, node: &Node) -> Result<Node, NoMemory>
    ensures { IfOk result (λ n. n ≡ node.now) }
{
    let path = Vec::from_slice(alloc, node.path.as_slice())?;
    Ok(Node {
        path: Items::from_vec(path),
        inst: copy_inst(alloc, &node.inst)?,
        net: node.net,
        transition: node.transition,
        values: copy_all(alloc, node.values.as_slice())?,
    })
}

/// A binding equal to this one, in memory of its own.
pub fn copy_binding(alloc: Global, binding: &Binding) -> Result<Binding, NoMemory>
    ensures { IfOk result (λ b. b ≡ binding.now) }
{
    let mut nodes = Vec::with_capacity(alloc, binding.nodes.len())?;
    for node in binding.nodes.as_slice() {
        nodes.push(copy_node(alloc, node)?)?;
    }
    Ok(Binding {
        nodes: Items::from_vec(nodes),
    })
}

fn copy_reason(alloc: Global, reason: &Reason) -> Result<Reason, NoMemory>
    ensures { IfOk result (λ r. r ≡ reason.now) }
{
    match reason {
        Reason::Dead => Ok(Reason::Dead),
        Reason::Steps => Ok(Reason::Steps),
        Reason::Fault(cause, binding) => Ok(Reason::Fault(*cause, copy_binding(alloc, binding)?)),
        Reason::Memory => Ok(Reason::Memory),
    }
}

/// An entry equal to this one, in memory of its own.
pub fn copy_entry(alloc: Global, entry: &Entry) -> Result<Entry, NoMemory>
    ensures { IfOk result (λ e. e ≡ entry.now) }
{
    match entry {
        Entry::Fire {
            worker,
            binding,
            outs,
        } => Ok(Entry::Fire {
            worker: *worker,
            binding: copy_binding(alloc, binding)?,
            outs: copy_all(alloc, outs.as_slice())?,
        }),
        Entry::End(reason) => Ok(Entry::End(copy_reason(alloc, reason)?)),
    }
}
