//! Nodes, as records have them.
ghost use Rattle.std.specs.Prelude.{length, map, IfOk, Some};
ghost use Rattle.rn_lines.specs.Reading.{ReturnsRead};
ghost use Rattle.rn_lines.specs.NodeReading.{given_at, all_given_at, node_at};
ghost use Rattle.rn_lines.specs.NodeText.{NodeSaid, IsNode};
ghost use Rattle.rn_lines.specs.link.NodeSeen.{given, node};

use crate::instances::{Mention, byte_at, inst_at, name_at};
use crate::unread::Unread;
use crate::values::{ReadValue, seen_at};
use rn_value::Value;
use std::alloc::Global;

/// A variable with its value, as ` x=5`, and the instances that the value's text names.
#[derive(Debug, Drop)]
pub struct ReadGiven<'a> {
    pub variable: &'a [u8],
    pub value: Value,
    pub mentions: Vec<Mention<'a>>,
}

/// A node, as `main[1].t x=5`, by the names that its text has.
#[derive(Debug, Drop)]
pub struct ReadNode<'a> {
    pub inst: Mention<'a>,
    pub transition: &'a [u8],
    pub given: Vec<ReadGiven<'a>>,
}

/// The node whose text the bytes are, all of the bytes.
///
/// It is read by names alone: whether the system has that net, that transition and these variables,
/// and whether the values are of their kinds, is for the caller to find out.
pub fn read_node(alloc: Global, bytes: &[u8]) -> Result<ReadNode<'_>, Unread>
    ensures found { IfOk result (λ n. IsNode (node n) bytes.now) }
    ensures only { (x : NodeSaid) → IsNode x bytes.now → ReturnsRead node result (Some x) }
{
    node_at(alloc, bytes)
}

/// The node that the bytes are, all of them.
pub(crate) fn node_at(alloc: Global, bytes: &[u8]) -> Result<ReadNode<'_>, Unread>
    ensures { ReturnsRead node result (node_at bytes.now) }
{
    let (inst, rest) = inst_at(bytes)?;
    let rest = byte_at(b'.', rest)?;
    let (transition, rest) = name_at(rest)?;
    let given = all_given_at(alloc, rest)?;
    Ok(ReadNode {
        inst,
        transition,
        given,
    })
}

/// A variable with its value at the start of bytes, and the bytes after it.
fn given_at(alloc: Global, bytes: &[u8]) -> Result<(ReadGiven<'_>, &[u8]), Unread>
    ensures { ReturnsRead (λ x. (given x.0, x.1.now)) result (given_at bytes.now) }
{
    let rest = byte_at(b' ', bytes)?;
    let (variable, rest) = name_at(rest)?;
    let rest = byte_at(b'=', rest)?;
    let ReadValue {
        value,
        mentions,
        rest,
    } = seen_at(alloc, rest)?;
    let given = ReadGiven {
        variable,
        value,
        mentions,
    };
    Ok((given, rest))
}

/// Variables with their values, up to the end of the bytes.
fn all_given_at(alloc: Global, bytes: &[u8]) -> Result<Vec<ReadGiven<'_>>, Unread>
    ensures { ReturnsRead (λ v. map given v.items) result (all_given_at (length bytes.now) bytes.now) }
{
    let mut all = Vec::new(alloc);
    let mut rest = bytes;
    let most = bytes.len();
    for _ in 0..most {
        if rest.is_empty() {
            return Ok(all);
        }
        let (given, more) = given_at(alloc, rest)?;
        all.push(given)?;
        rest = more;
    }
    if rest.is_empty() {
        Ok(all)
    } else {
        Err(Unread::NotThere)
    }
}
