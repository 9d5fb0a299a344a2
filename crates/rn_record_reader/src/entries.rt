//! The entries of a record, one after the other.
ghost use Rattle.std.specs.Prelude.{◌<◌, ◌+◌, ◌^◌, IfOk, length};
ghost use Rattle.rn_model.specs.Good.{Good};
ghost use Rattle.rn_lookup.specs.link.Tables.{IsDirectoryOf};
ghost use Rattle.rn_record_reader.specs.Lines.{lines_in};
ghost use Rattle.rn_record_reader.specs.link.RunsAhead.{EntryTells};

use crate::ends::{EndRead, bad_line, read_end};
use crate::firings::{FiringRead, read_firing};
use crate::opening::{Opens, next_opening};
use crate::reader::{EndReader, Reader};
use rn_lookup::Refusal;
use rn_model::Entry;
use rn_value::NoMemory;
use std::alloc::Global;

/// What is read of an entry.
#[derive(Debug, Drop)]
pub(crate) enum EntryRead<'a> {
    /// A firing: how many lines it has, and the bytes after them.
    Fired(Entry, usize, &'a [u8]),

    /// The end, with its marks, or the first bad line.
    Over(EndRead),
}

/// What is read of the entry at the start of the bytes, whose first line has this number, and which
/// has this step if it is a firing.
///
/// `made` has the nets of the instances that firings made, from number 1 on; those that this one
/// makes are added.
pub(crate) fn next_entry<'a>(
    alloc: Global,
    by: Reader<'_>,
    made: &mut Vec<u32>,
    step: u64,
    line: u32,
    bytes: &'a [u8],
) -> Result<EntryRead<'a>, NoMemory>
    requires good { Good by.system.now }
    requires directory { IsDirectoryOf by.system.now by.directory.now }
    requires few { line + length (lines_in bytes.now) < 2 ^ 32 }
    ensures { IfOk result (λ read. EntryTells by.entry.format by.entry.system.now made.old.items
        step line (lines_in bytes.now) made.new.items read) }
{
    let worker = match next_opening(alloc, bytes)? {
        Opens::Firing(worker) => worker,
        Opens::Ending(ending, rest) => {
            let by = EndReader {
                reader: by,
                made: made.as_slice(),
            };
            let end = read_end(alloc, by, line + 1, ending, rest)?;
            return Ok(EntryRead::Over(end));
        }
        Opens::Neither => return Ok(EntryRead::Over(EndRead::Bad(line, Refusal::Form))),
    };
    match read_firing(alloc, by, made, step, worker, bytes)? {
        FiringRead::Fired(entry, count, rest) => Ok(EntryRead::Fired(entry, count, rest)),
        FiringRead::Broken(bad) => Ok(EntryRead::Over(bad_line(line, bad))),
    }
}
