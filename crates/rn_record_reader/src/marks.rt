//! The marks at the end of a record, line by line.
ghost use Rattle.std.specs.Prelude.{◌≡◌, ◌≤◌, IfOk};
ghost use Rattle.rn_lookup.specs.link.Tables.{IsDirectoryOf};
ghost use Rattle.rn_record_reader.specs.Lines.{lines_in};
ghost use Rattle.rn_record_reader.specs.Marks.{most_told_values, marks_from};
ghost use Rattle.rn_record_reader.specs.link.MarksAhead.{mark, MarkJudged, MarkSteps, LeavesLess};

use crate::items::{counted_after, fits_format, values_of};
use crate::lines::{Next, next_line};
use crate::reader::{EndReader, Reader};
use rn_lines::{Line, ReadMark};
use rn_lookup::{Refusal, find_mark, is_called, tokens_are_called};
use rn_model::MarkLine;
use rn_value::NoMemory;
use std::alloc::Global;

/// What comes next where a mark may stand.
#[derive(Debug, Drop)]
pub(crate) enum MarkNext {
    /// The record ends.
    End,

    /// A mark, and how many values are counted with it.
    Marks(MarkLine, u64),

    Refused(Refusal),
}

/// The marks that were read, and why the next line is refused, if there is one.
#[derive(Debug, Drop)]
pub(crate) struct MarksRead {
    pub(crate) marks: Vec<MarkLine>,
    pub(crate) refusal: Option<Refusal>,
}

/// What a mark is, where so many values were counted before it.
fn judge_mark(
    alloc: Global,
    by: EndReader<'_>,
    held: u64,
    read: &ReadMark<'_>,
) -> Result<MarkNext, NoMemory>
    requires directory { IsDirectoryOf by.reader.system.now by.reader.directory.now }
    requires few { held ≤ most_told_values }
    ensures { IfOk result (λ next.
        MarkJudged by.entry.reader.format by.entry.reader.system.now by.entry.made.now held
        (mark read.now) next) }
{
    let Reader {
        system,
        directory,
        format,
    } = by.reader;
    let items = read.items.as_slice();
    if !fits_format(format, items) {
        return Ok(MarkNext::Refused(Refusal::Form));
    }
    let found = match find_mark(alloc, system, directory, read) {
        Ok(found) => found,
        Err(Refusal::Memory(no_memory)) => return Err(no_memory),
        Err(refusal) => return Ok(MarkNext::Refused(refusal)),
    };
    if !is_called(system, by.made, &read.inst) || !tokens_are_called(system, by.made, items) {
        return Ok(MarkNext::Refused(Refusal::Name));
    }
    let Some(counted) = counted_after(format, held, items) else {
        return Ok(MarkNext::Refused(Refusal::Many));
    };
    let line = MarkLine {
        inst: read.inst.number,
        net: found.net,
        place: found.place,
        values: values_of(alloc, items)?,
    };
    Ok(MarkNext::Marks(line, counted))
}

fn next_mark<'a>(
    alloc: Global,
    by: EndReader<'_>,
    held: u64,
    bytes: &'a [u8],
) -> Result<(MarkNext, &'a [u8]), NoMemory>
    requires directory { IsDirectoryOf by.reader.system.now by.reader.directory.now }
    requires few { held ≤ most_told_values }
    ensures steps { IfOk result (λ next. MarkSteps by.entry.reader.format by.entry.reader.system.now
        by.entry.made.now held (lines_in bytes.now) next.0 (lines_in next.1.now)) }
    ensures less { IfOk result (λ next. LeavesLess next.0 next.1.now bytes.now) }
{
    match next_line(alloc, bytes)? {
        Next::Line(line, rest) => match line {
            Line::Holds(read) => {
                let next = judge_mark(alloc, by, held, &read)?;
                Ok((next, rest))
            }
            _ => Ok((MarkNext::Refused(Refusal::Form), bytes)),
        },
        Next::End => Ok((MarkNext::End, bytes)),
        Next::Broken => Ok((MarkNext::Refused(Refusal::Form), bytes)),
    }
}

/// The marks that the bytes are in the format of the record, and why the line after them is
/// refused, where there is one.
pub(crate) fn read_marks(
    alloc: Global,
    by: EndReader<'_>,
    bytes: &[u8],
) -> Result<MarksRead, NoMemory>
    requires { IsDirectoryOf by.reader.system.now by.reader.directory.now }
    ensures { IfOk result (λ read. (read.marks.items, read.refusal)
        ≡ marks_from by.entry.reader.format by.entry.reader.system.now by.entry.made.now 0
        (lines_in bytes.now)) }
{
    let mut marks = Vec::new(alloc);
    let mut held = 0u64;
    let mut rest = bytes;
    loop {
        let (next, more) = next_mark(alloc, by, held, rest)?;
        let refusal = match next {
            MarkNext::Marks(line, counted) => {
                marks.push(line)?;
                held = counted;
                rest = more;
                continue;
            }
            MarkNext::End => None,
            MarkNext::Refused(refusal) => Some(refusal),
        };
        return Ok(MarksRead { marks, refusal });
    }
}
