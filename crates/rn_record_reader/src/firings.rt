//! The firings of a record.
ghost use Rattle.std.specs.Prelude.{◌≡◌, ◌<◌, ◌+◌, ◌^◌, ℕ, List, IfOk, length, map};
ghost use Rattle.rn_model.specs.Good.{Good};
ghost use Rattle.rn_lookup.specs.link.Tables.{IsDirectoryOf};
ghost use Rattle.rn_record_reader.specs.Lines.{lines_in};
ghost use Rattle.rn_record_reader.specs.Prints.{prints_from};
ghost use Rattle.rn_record_reader.specs.Firings.{with_prints, firing_read};
ghost use Rattle.rn_record_reader.specs.link.FiringsAhead.{ReadsFiring};
ghost use Rattle.rn_record_reader.specs.link.NodesAhead.{placed};

use crate::bindings::told_binding;
use crate::called::{BadLine, nodes_fault, push_made};
use crate::nodes::{NodesEnd, NodesRead, PlacedNode, read_nodes};
use crate::prints::{Firing, PrintsEnd, PrintsRead, read_prints};
use crate::reader::Reader;
use crate::role::Role;
use rn_items::Items;
use rn_lookup::Refusal;
use rn_model::Entry;
use rn_value::NoMemory;
use std::alloc::Global;

/// What is read of a firing.
#[derive(Debug, Drop)]
pub(crate) enum FiringRead<'a> {
    /// Its entry, how many lines it has, and the bytes after them.
    Fired(Entry, usize, &'a [u8]),

    /// Its first bad line.
    Broken(BadLine),
}

/// What is read of a firing whose nodes these are, made where there were so many instances.
fn read_on<'a>(
    alloc: Global,
    by: Reader<'_>,
    count: usize,
    firing: Firing<'_>,
    nodes: &[PlacedNode<'_>],
    rest: &'a [u8],
) -> Result<FiringRead<'a>, NoMemory>
    requires good { Good by.system.now }
    requires directory { IsDirectoryOf by.system.now by.directory.now }
    requires few { length nodes.now + length (lines_in rest.now) < 2 ^ 32 }
    ensures { IfOk result (λ read. (made : List ℕ) → length made ≡ count →
        ReadsFiring (with_prints by.entry.system.now made firing.entry.made.now firing.entry.worker
        (map placed nodes.now) (prints_from by.entry.system.now firing.entry.made.now
        firing.entry.step firing.entry.worker (lines_in rest.now))) firing.entry.made.now read) }
{
    let PrintsRead { outs, end } = read_prints(alloc, by.system, by.directory, firing, rest)?;
    let lines = nodes.len() + outs.len();
    match end {
        PrintsEnd::Over(rest) => {
            let binding = told_binding(alloc, by.system, count, nodes)?;
            let entry = Entry::Fire {
                worker: firing.worker,
                binding,
                outs: Items::from_vec(outs),
            };
            Ok(FiringRead::Fired(entry, lines, rest))
        }
        PrintsEnd::Refused(refusal) => Ok(FiringRead::Broken(BadLine {
            before: lines,
            refusal,
        })),
    }
}

/// What is read of a firing with this step and worker at the start of the bytes: its nodes, each
/// followed by those that it calls, and then what it printed. It ends before the first line that
/// isn't one of its.
///
/// `made` has the nets of the instances that were made before, from number 1 on; those that the
/// firing makes are added. Where one of its lines is bad, those of the nodes before it are.
pub(crate) fn read_firing<'a>(
    alloc: Global,
    by: Reader<'_>,
    made: &mut Vec<u32>,
    step: u64,
    worker: u32,
    bytes: &'a [u8],
) -> Result<FiringRead<'a>, NoMemory>
    requires good { Good by.system.now }
    requires directory { IsDirectoryOf by.system.now by.directory.now }
    requires few { length (lines_in bytes.now) < 2 ^ 32 }
    ensures { IfOk result (λ read. ReadsFiring
        (firing_read by.entry.system.now made.old.items step worker (lines_in bytes.now))
        made.new.items read) }
{
    let count = made.len();
    let role = Role::Firing { step, worker };
    let read = read_nodes(alloc, by.system, by.directory, role, bytes)?;
    push_made(by.system, read.nodes.as_slice(), made)?;
    if let Some(bad) = nodes_fault(by.system, made.as_slice(), &read) {
        return Ok(FiringRead::Broken(bad));
    }
    let NodesRead { nodes, end } = read;
    let NodesEnd::Whole(rest) = end else {
        return Ok(FiringRead::Broken(BadLine {
            before: nodes.len(),
            refusal: Refusal::Form,
        }));
    };
    let firing = Firing {
        made: made.as_slice(),
        step,
        worker,
    };
    read_on(alloc, by, count, firing, nodes.as_slice(), rest)
}
