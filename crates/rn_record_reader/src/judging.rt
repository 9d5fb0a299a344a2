//! Single lines where a node is due.
ghost use Rattle.std.specs.Prelude.{◌≡◌, ◌<◌, IfOk, option_map};
ghost use Rattle.std.specs.Prelude.{ℕ, List};
ghost use Rattle.rn_lines.specs.link.LinesSeen.{lead, line};
ghost use Rattle.rn_lines.specs.link.NodeSeen.{node};
ghost use Rattle.rn_lookup.specs.link.Tables.{IsDirectoryOf};
ghost use Rattle.rn_record_reader.specs.Lines.{lines_in};
ghost use Rattle.rn_record_reader.specs.Nodes.{is_step, own_node, node_due, judged_node};
ghost use Rattle.rn_record_reader.specs.Paths.{is_root};
ghost use Rattle.rn_record_reader.specs.link.NodesAhead.{Judges, ReadsNode, LeavesLess};

use crate::lines::{Next, next_line};
use crate::role::Role;
use rn_lines::{Lead, Line, ReadNode, is_numeral};
use rn_lookup::{Directory, FoundNode, Refusal, find_node};
use rn_model::System;
use rn_value::NoMemory;
use std::alloc::Global;

/// What a line is where a node is due.
#[derive(Debug, Drop)]
pub(crate) enum NodeLine<'a> {
    /// A node that stands there.
    Stands(FoundNode, ReadNode<'a>),

    /// A node that would, but for its step.
    Late(ReadNode<'a>),

    Refused(Refusal),
}

/// Whether digits are the numeral of a step.
pub(crate) fn is_step(step: u64, digits: &[u8]) -> bool
    ensures { result ≡ is_step step digits.now }
{
    is_numeral(step, digits)
}

fn own_node<'a>(
    step: u64,
    worker: u32,
    begins: Lead<'a>,
    read: ReadNode<'a>,
) -> Option<(ReadNode<'a>, bool)>
    ensures { option_map (λ x. (node x.0, x.1)) result
        ≡ own_node step worker (lead begins.entry) (node read.entry) }
{
    if begins.worker == worker {
        Some((read, is_step(step, begins.step)))
    } else {
        None
    }
}

/// The node of a line, and whether its step is right.
fn node_due<'a>(role: Role, first: bool, read: Line<'a>) -> Option<(ReadNode<'a>, bool)>
    ensures { option_map (λ x. (node x.0, x.1)) result ≡ node_due role first (line read.entry) }
{
    match role {
        Role::Firing { step, worker } => match read {
            Line::Fires(begins, read) => {
                if first {
                    own_node(step, worker, begins, read)
                } else {
                    None
                }
            }
            Line::Calls(begins, read) => {
                if first {
                    None
                } else {
                    own_node(step, worker, begins, read)
                }
            }
            _ => None,
        },
        Role::Fault => match read {
            Line::WouldFire(read) => { if first { Some((read, true)) } else { None } }
            Line::WouldCall(read) => { if first { None } else { Some((read, true)) } }
            _ => None,
        },
    }
}

/// What a line is.
fn judge<'a>(
    alloc: Global,
    system: &System,
    directory: &Directory,
    role: Role,
    first: bool,
    read: Line<'a>,
) -> Result<NodeLine<'a>, NoMemory>
    requires { IsDirectoryOf system.now directory.now }
    ensures { IfOk result (λ j. Judges system.now j
        (judged_node system.now (node_due role first (line read.entry)))) }
{
    let Some((read, right)) = node_due(role, first, read) else {
        return Ok(NodeLine::Refused(Refusal::Form));
    };
    match find_node(alloc, system, directory, &read) {
        Ok(found) => {
            if right {
                Ok(NodeLine::Stands(found, read))
            } else {
                Ok(NodeLine::Late(read))
            }
        }
        Err(Refusal::Memory(no_memory)) => Err(no_memory),
        Err(refusal) => Ok(NodeLine::Refused(refusal)),
    }
}

/// What comes next where a node is due, and the bytes after its line where it stands there.
pub(crate) fn judge_next<'a>(
    alloc: Global,
    system: &System,
    directory: &Directory,
    role: Role,
    first: bool,
    bytes: &'a [u8],
) -> Result<(NodeLine<'a>, &'a [u8]), NoMemory>
    requires { IsDirectoryOf system.now directory.now }
    ensures steps { IfOk result (λ next. (path : List ℕ) (due : List (List ℕ)) →
        is_root path ≡ first →
        ReadsNode system.now role path due (lines_in bytes.now) next.0 (lines_in next.1.now)) }
    ensures less { IfOk result (λ next. LeavesLess next.0 next.1.now bytes.now) }
{
    match next_line(alloc, bytes)? {
        Next::Line(read, rest) => Ok((judge(alloc, system, directory, role, first, read)?, rest)),
        _ => Ok((NodeLine::Refused(Refusal::Form), bytes)),
    }
}
