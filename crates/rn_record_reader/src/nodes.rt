//! The nodes of a binding, line by line.
ghost use Rattle.std.specs.Prelude.{◌≡◌, IfOk, length, map};
ghost use Rattle.rn_model.specs.Good.{Good};
ghost use Rattle.rn_model.specs.Systems.{transition_at};
ghost use Rattle.rn_lookup.specs.link.Tables.{IsDirectoryOf};
ghost use Rattle.rn_record_reader.specs.Lines.{lines_in};
ghost use Rattle.rn_record_reader.specs.Nodes.{binding_lines};
ghost use Rattle.rn_record_reader.specs.link.NodesAhead.{placed, stop};

use crate::due::Due;
use crate::judging::{NodeLine, judge_next};
use crate::role::Role;
use rn_lines::ReadNode;
use rn_lookup::{Directory, FoundNode, Refusal};
use rn_model::{System, transition_at};
use rn_value::{NoMemory, Path};
use std::alloc::Global;

/// A node at its place in a binding.
#[derive(Debug, Drop)]
pub(crate) struct PlacedNode<'a> {
    pub(crate) path: Path,
    pub(crate) found: FoundNode,
    pub(crate) node: ReadNode<'a>,
}

/// Why no more nodes are read.
#[derive(Debug, Drop)]
pub(crate) enum NodesEnd<'a> {
    /// No more are due; these bytes are left.
    Whole(&'a [u8]),

    /// The next line would stand there, but for its step.
    Late(ReadNode<'a>),

    /// The next line is refused.
    Refused(Refusal),
}

/// The nodes that were read, and why no more are.
#[derive(Debug, Drop)]
pub(crate) struct NodesRead<'a> {
    pub(crate) nodes: Vec<PlacedNode<'a>>,
    pub(crate) end: NodesEnd<'a>,
}

/// How many nodes a node with this transition calls.
fn count_called(system: &System, found: FoundNode) -> usize
    ensures { result ≡ length (transition_at system.now found.net found.transition).downlinks }
{
    match transition_at(system, found.net, found.transition) {
        Some(transition) => transition.downlinks.len(),
        None => 0,
    }
}

/// The same, which is small in a good system.
fn small_count(system: &System, found: FoundNode) -> u32
    requires { Good system.now }
    ensures { result ≡ length (transition_at system.now found.net found.transition).downlinks }
{
    count_called(system, found) as u32
}

/// The nodes at the start of the bytes, each at its place.
pub(crate) fn read_nodes<'a>(
    alloc: Global,
    system: &System,
    directory: &Directory,
    role: Role,
    bytes: &'a [u8],
) -> Result<NodesRead<'a>, NoMemory>
    requires good { Good system.now }
    requires directory { IsDirectoryOf system.now directory.now }
    ensures { IfOk result (λ read. (map placed read.nodes.items, stop read.end)
        ≡ binding_lines system.now role (lines_in bytes.now)) }
{
    let mut due = Due::new(alloc);
    let mut nodes = Vec::new(alloc);
    let mut rest = bytes;
    while !due.is_done() {
        let (line, more) = judge_next(alloc, system, directory, role, due.is_first(), rest)?;
        let end = match line {
            NodeLine::Stands(found, node) => {
                let path = due.path(alloc)?;
                due.read(small_count(system, found))?;
                nodes.push(PlacedNode { path, found, node })?;
                rest = more;
                continue;
            }
            NodeLine::Late(node) => NodesEnd::Late(node),
            NodeLine::Refused(refusal) => NodesEnd::Refused(refusal),
        };
        return Ok(NodesRead { nodes, end });
    }
    Ok(NodesRead {
        nodes,
        end: NodesEnd::Whole(rest),
    })
}
