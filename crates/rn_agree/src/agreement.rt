//! Whether a binding of the shape agrees.
ghost use Rattle.std.specs.Prelude.{◌↔◌, All, IfOk, IsTrue};
ghost use Rattle.rn_model.specs.Agreement.{Agrees};
ghost use Rattle.rn_model.specs.Bindings.{Shape};
ghost use Rattle.rn_model.specs.Good.{Good};
ghost use Rattle.rn_agree.specs.link.Agreeing.{AgreesInParts, CallsAgree, IsFitNode, IsReadable};
ghost use Rattle.rn_agree.specs.link.Agreeing.{NodeHolds};
ghost use Rattle.rn_agree.specs.Paths.{AscendByPath};

use crate::calls::calls_agree;
use crate::inscriptions::node_holds;
use rn_model::{Binding, System};
use rn_value::NoMemory;
use std::alloc::Global;

fn nodes_hold(alloc: Global, system: &System, binding: &Binding) -> Result<bool, NoMemory>
    requires good { Good system.now }
    requires nodes { All (IsReadable system.now) binding.now.nodes }
    ensures { IfOk result (λ yes. IsTrue yes ↔ All (NodeHolds system.now) binding.now.nodes) }
{
    let nodes = binding.nodes.as_slice();
    for node in nodes {
        if !node_holds(alloc, system, node)? {
            return Ok(false);
        }
    }
    Ok(true)
}

fn all_calls_agree(alloc: Global, system: &System, binding: &Binding) -> Result<bool, NoMemory>
    requires ascending { AscendByPath binding.now.nodes }
    requires nodes { All (IsReadable system.now) binding.now.nodes }
    requires fit { All (IsFitNode system.now) binding.now.nodes }
    ensures { IfOk result
        (λ yes. IsTrue yes ↔ All (CallsAgree system.now binding.now) binding.now.nodes) }
{
    let nodes = binding.nodes.as_slice();
    for node in nodes {
        if !calls_agree(alloc, system, binding, node)? {
            return Ok(false);
        }
    }
    Ok(true)
}

// Whether all nodes hold and all calls agree.
pub(crate) fn agrees_in_parts(
    alloc: Global,
    system: &System,
    binding: &Binding,
) -> Result<bool, NoMemory>
    requires good { Good system.now }
    requires ascending { AscendByPath binding.now.nodes }
    requires nodes { All (IsReadable system.now) binding.now.nodes }
    ensures { IfOk result (λ yes. IsTrue yes ↔ AgreesInParts system.now binding.now) }
{
    if !nodes_hold(alloc, system, binding)? {
        return Ok(false);
    }
    all_calls_agree(alloc, system, binding)
}

/// Whether a binding of the shape agrees: each node's inscriptions hold at its values, and so does
/// each call.
///
/// Each inscription is evaluated once, and values of variables are looked at where they stand.
/// Besides the values of variables none is compared with its kind: in a good system it has it.
pub fn does_agree(
    alloc: Global,
    system: &System,
    depth: u32,
    binding: &Binding,
) -> Result<bool, NoMemory>
    requires good { Good system.now }
    requires shape { Shape system.now binding.now depth }
    ensures { IfOk result (λ yes. IsTrue yes ↔ Agrees system.now binding.now) }
{
    agrees_in_parts(alloc, system, binding)
}
