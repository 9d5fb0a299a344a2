//! The end of a record, and its marks.
ghost use Rattle.std.specs.Prelude.{◌≡◌, ◌<◌, ◌+◌, ◌^◌, IfOk, length, map};
ghost use Rattle.rn_model.specs.Good.{Good};
ghost use Rattle.rn_lookup.specs.link.Tables.{IsDirectoryOf};
ghost use Rattle.rn_record_reader.specs.Lines.{lines_in};
ghost use Rattle.rn_record_reader.specs.Marks.{marks_from};
ghost use Rattle.rn_record_reader.specs.Nodes.{Stop};
ghost use Rattle.rn_record_reader.specs.link.NodesAhead.{placed};
ghost use Rattle.rn_record_reader.specs.Runs.{Verdict, with_marks, after_fault, fault_read, end_read};
ghost use Rattle.rn_record_reader.specs.link.RunsAhead.{end_verdict};

use crate::bindings::told_binding;
use crate::called::{BadLine, nodes_fault, push_made};
use crate::marks::read_marks;
use crate::nodes::{NodesEnd, NodesRead, PlacedNode, read_nodes};
use crate::reader::EndReader;
use crate::role::Role;
use rn_lines::Ending;
use rn_lookup::Refusal;
use rn_model::{FaultKind, MarkLine, Reason};
use rn_value::NoMemory;
use std::alloc::Global;

/// What is read of an end.
#[derive(Debug, Drop)]
pub(crate) enum EndRead {
    Told(Reason, Vec<MarkLine>),

    /// A bad line, by its number.
    Bad(u32, Refusal),
}

/// The marks after an end; their first line has this number.
fn with_marks(
    alloc: Global,
    by: EndReader<'_>,
    line: u32,
    reason: Reason,
    bytes: &[u8],
) -> Result<EndRead, NoMemory>
    requires directory { IsDirectoryOf by.reader.system.now by.reader.directory.now }
    requires few { line + length (lines_in bytes.now) < 2 ^ 32 }
    ensures { IfOk result (λ read.
        with_marks reason line (marks_from by.entry.reader.format by.entry.reader.system.now
        by.entry.made.now 0 (lines_in bytes.now)) ≡ end_verdict read) }
{
    let read = read_marks(alloc, by, bytes)?;
    match read.refusal {
        None => Ok(EndRead::Told(reason, read.marks)),
        Some(refusal) => Ok(EndRead::Bad(line + read.marks.len() as u32, refusal)),
    }
}

/// A firing that is undefined, by its nodes, and the marks after it; its first line has this number.
fn fault_on(
    alloc: Global,
    by: EndReader<'_>,
    line: u32,
    cause: FaultKind,
    nodes: &[PlacedNode<'_>],
    rest: &[u8],
) -> Result<EndRead, NoMemory>
    requires good { Good by.reader.system.now }
    requires directory { IsDirectoryOf by.reader.system.now by.reader.directory.now }
    requires few { line + length nodes.now + length (lines_in rest.now) < 2 ^ 32 }
    ensures { IfOk result (λ read. after_fault by.entry.reader.format by.entry.reader.system.now
        by.entry.made.now line cause (map placed nodes.now) (Stop.whole (lines_in rest.now))
        ≡ end_verdict read) }
{
    let binding = told_binding(alloc, by.reader.system, by.made.len(), nodes)?;
    let reason = Reason::Fault(cause, binding);
    let line = line + nodes.len() as u32;
    with_marks(alloc, by, line, reason, rest)
}

/// The line of what is wrong with a binding whose first line has this number.
pub(crate) fn bad_line(line: u32, bad: BadLine) -> EndRead
    requires { line + bad.before < 2 ^ 32 }
    ensures { end_verdict result ≡ Verdict.bad (line + bad.before) bad.refusal }
{
    EndRead::Bad(line + bad.before as u32, bad.refusal)
}

/// A firing that is undefined, and the marks after it; its first line has this number.
fn read_fault(
    alloc: Global,
    by: EndReader<'_>,
    line: u32,
    cause: FaultKind,
    bytes: &[u8],
) -> Result<EndRead, NoMemory>
    requires good { Good by.reader.system.now }
    requires directory { IsDirectoryOf by.reader.system.now by.reader.directory.now }
    requires few { line + length (lines_in bytes.now) < 2 ^ 32 }
    ensures { IfOk result (λ read.
        fault_read by.entry.reader.format by.entry.reader.system.now by.entry.made.now line cause
        (lines_in bytes.now) ≡ end_verdict read) }
{
    let reader = by.reader;
    let read = read_nodes(alloc, reader.system, reader.directory, Role::Fault, bytes)?;
    let mut all = Vec::from_slice(alloc, by.made)?;
    push_made(reader.system, read.nodes.as_slice(), &mut all)?;
    if let Some(bad) = nodes_fault(reader.system, all.as_slice(), &read) {
        return Ok(bad_line(line, bad));
    }
    let NodesRead { nodes, end } = read;
    let NodesEnd::Whole(rest) = end else {
        return Ok(bad_line(
            line,
            BadLine {
                before: nodes.len(),
                refusal: Refusal::Form,
            },
        ));
    };
    fault_on(alloc, by, line, cause, nodes.as_slice(), rest)
}

/// What stands after the line of an end, the first line with this number.
pub(crate) fn read_end(
    alloc: Global,
    by: EndReader<'_>,
    line: u32,
    ending: Ending,
    bytes: &[u8],
) -> Result<EndRead, NoMemory>
    requires good { Good by.reader.system.now }
    requires directory { IsDirectoryOf by.reader.system.now by.reader.directory.now }
    requires few { line + length (lines_in bytes.now) < 2 ^ 32 }
    ensures { IfOk result (λ read.
        end_read by.entry.reader.format by.entry.reader.system.now by.entry.made.now line ending
        (lines_in bytes.now) ≡ end_verdict read) }
{
    match ending {
        Ending::Dead => with_marks(alloc, by, line, Reason::Dead, bytes),
        Ending::Steps => with_marks(alloc, by, line, Reason::Steps, bytes),
        Ending::Memory => with_marks(alloc, by, line, Reason::Memory, bytes),
        Ending::ActionFault => read_fault(alloc, by, line, FaultKind::Action, bytes),
        Ending::InstancesFault => read_fault(alloc, by, line, FaultKind::Instances, bytes),
    }
}
