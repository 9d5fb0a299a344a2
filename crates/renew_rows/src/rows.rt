//! All rows of an input, one at a time.
ghost use Rattle.std.specs.Prelude.{◌≡◌, ◌+◌, ◌≤◌, ◌<◌, ◌^◌, length, IfOk, IfSome};
ghost use Rattle.renew_rows.specs.Judging.{AreJudged};
ghost use Rattle.renew_rows.specs.Counting.{CountsNext, EndsWith};
ghost use Rattle.renew_rows.specs.Lines.{headings, lines_of};

use crate::judging::{is_wrong, judge};
use crate::lines::Lines;
use crate::reading::read_row;
use crate::saying::Unread;
use crate::tally::RowTally;
use crate::telling::{last_line, line_of, unread_line};
use rn_items::NoMemory;
use rn_outside::{ReadAllFault, Sink, Source, WriteFault, read_all, write_all};
use std::alloc::Global;
use std::sync::Wait;
use std::thread::Threads;

/// The status where each row is as it must be.
const DONE: u8 = 0;

/// The status where some row isn't.
const DIFFERENT: u8 = 1;

/// The status where a line can't be read.
const UNREAD: u8 = 2;

/// The status where memory ran out, or a read or a write failed.
const UNDONE: u8 = 3;

/// The most bytes of an input.
const LONGEST: usize = 1 << 30;

/// Why not all rows were judged.
#[derive(Clone, Copy, PartialEq, Eq)]
pub(crate) enum RowsStopped {
    /// The line of this number can't be read.
    Line(usize),
    NoMemory(NoMemory),
    ReadFault,
    TooLong,
    WriteFault,
}

impl From<NoMemory> for RowsStopped {
    fn from(no_memory: NoMemory) -> RowsStopped {
        RowsStopped::NoMemory(no_memory)
    }
}

impl From<WriteFault> for RowsStopped {
    fn from(_fault: WriteFault) -> RowsStopped {
        RowsStopped::WriteFault
    }
}

impl From<ReadAllFault> for RowsStopped {
    fn from(fault: ReadAllFault) -> RowsStopped {
        match fault {
            ReadAllFault::ReadFault => RowsStopped::ReadFault,
            ReadAllFault::TooLong => RowsStopped::TooLong,
            ReadAllFault::NoMemory(no_memory) => RowsStopped::NoMemory(no_memory),
        }
    }
}

// The next row, whose call is made; none at the end. One that isn't as it must be is reported.
fn judge_next<R: Threads + Wait + Sync, O: Sink>(
    rt: &R,
    alloc: Global,
    lines: &mut Lines<'_>,
    tally: RowTally,
    out: &mut O,
) -> Result<Option<RowTally>, RowsStopped>
    requires { tally.rows + length lines.old.rest.now < 2 ^ 64 }
    ensures next { IfOk result (λ counted.
        CountsNext (headings (lines_of lines.old.rest.now))
        (headings (lines_of lines.new.rest.now)) tally counted) }
    ensures shorter { IfOk result (λ counted. IfSome counted (λ more.
        (more.rows ≡ tally.rows + 1) × (length lines.new.rest.now < length lines.old.rest.now))) }
{
    let row = match read_row(alloc, lines) {
        Ok(None) => return Ok(None),
        Ok(Some(row)) => row,
        Err(Unread::Line) => return Err(RowsStopped::Line(lines.taken)),
        Err(Unread::NoMemory(no_memory)) => return Err(RowsStopped::NoMemory(no_memory)),
    };
    let judged = judge(rt, alloc, row)?;
    let wrong = is_wrong(&judged);
    if wrong {
        let line = line_of(alloc, &judged)?;
        write_all(out, &line)?;
    }
    Ok(Some(tally.count(wrong)))
}

// Judges all rows of a text.
fn judge_all<R: Threads + Wait + Sync, O: Sink>(
    rt: &R,
    alloc: Global,
    text: &[u8],
    out: &mut O,
) -> Result<RowTally, RowsStopped>
    ensures { IfOk result (λ tally.
        AreJudged (headings (lines_of text.now)) tally.rows tally.differ) }
{
    let mut lines = Lines::of(text);
    let mut tally = RowTally::nothing();
    while let Some(more) = judge_next(rt, alloc, &mut lines, tally, out)? {
        tally = more;
    }
    Ok(tally)
}

// Judges all rows of the input, and reports how many differ.
fn judge_input_to<R: Threads + Wait + Sync, I: Source, O: Sink>(
    rt: &R,
    alloc: Global,
    input: &mut I,
    out: &mut O,
) -> Result<u8, RowsStopped>
    ensures { IfOk result (λ status. EndsWith (I.left input.old) (I.left input.new) status) }
{
    let text = read_all(alloc, input, LONGEST)?;
    let tally = judge_all(rt, alloc, text.as_slice(), out)?;
    let line = last_line(alloc, &tally)?;
    write_all(out, &line)?;
    if tally.differ == 0 {
        Ok(DONE)
    } else {
        Ok(DIFFERENT)
    }
}

// Reports which line can't be read, and returns the status.
fn tell_unread<O: Sink>(alloc: Global, number: usize, out: &mut O) -> u8
    ensures { UNREAD ≤ result }
{
    let Ok(line) = unread_line(alloc, number) else {
        return UNDONE;
    };
    match write_all(out, &line) {
        Ok(()) => UNREAD,
        Err(_) => UNDONE,
    }
}

// The line of what else stopped the program.
fn fault_line(stopped: RowsStopped) -> &'static [u8] {
    match stopped {
        RowsStopped::Line(_) => b"a line can't be read\n",
        RowsStopped::NoMemory(_) => b"memory\n",
        RowsStopped::ReadFault => b"read fault\n",
        RowsStopped::TooLong => b"the input is too long\n",
        RowsStopped::WriteFault => b"write fault\n",
    }
}

/// Judges all rows of the input, reports each that isn't as it must be, and then how many rows
/// there are and how many of these. It returns the status with which the program ends.
pub(crate) fn judge_input<R: Threads + Wait + Sync, I: Source, O: Sink, E: Sink>(
    rt: &R,
    alloc: Global,
    input: &mut I,
    out: &mut O,
    err: &mut E,
) -> u8
    // With status 0 all rows of the input were judged, and each is as it must be. With status 1 all
    // were, and some aren't.
    ensures { result < UNREAD → EndsWith (I.left input.old) (I.left input.new) result }
{
    match judge_input_to(rt, alloc, input, out) {
        Ok(status) => status,
        Err(RowsStopped::Line(number)) => tell_unread(alloc, number, out),
        Err(stopped) => {
            let _ = write_all(err, fault_line(stopped));
            UNDONE
        }
    }
}
