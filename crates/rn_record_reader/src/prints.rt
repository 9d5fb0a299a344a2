//! The printed values of a firing, line by line.
ghost use Rattle.std.specs.Prelude.{◌≡◌, IfOk, Some};
ghost use Rattle.rn_lines.specs.link.LinesSeen.{lead, token};
ghost use Rattle.rn_lookup.specs.link.Tables.{IsDirectoryOf};
ghost use Rattle.rn_record_reader.specs.Lines.{lines_in};
ghost use Rattle.rn_record_reader.specs.Prints.{judged_print, prints_from};
ghost use Rattle.rn_record_reader.specs.link.PrintsAhead.{print, prints_end, PrintSteps, LeavesLess};

use crate::judging::is_step;
use crate::lines::{Next, next_line};
use rn_lines::{Lead, Line, ReadToken};
use rn_lookup::{Directory, Refusal, are_called, find_token};
use rn_model::System;
use rn_value::{NoMemory, Value};
use std::alloc::Global;

/// What a line is after the nodes of a firing.
#[derive(Debug, Drop)]
pub(crate) enum PrintLine {
    /// It prints nothing.
    Other,

    Prints(Value),
    Refused(Refusal),
}

/// A firing whose nodes were read: the nets of the instances made, its own among them, its number
/// and its worker.
#[derive(Clone, Copy)]
pub(crate) struct Firing<'a> {
    pub(crate) made: &'a [u32],
    pub(crate) step: u64,
    pub(crate) worker: u32,
}

/// Why no more printed values are read.
#[derive(Debug, Drop)]
pub(crate) enum PrintsEnd<'a> {
    /// These bytes are left.
    Over(&'a [u8]),

    /// The next line is refused.
    Refused(Refusal),
}

/// The printed values that were read, and why no more are.
#[derive(Debug, Drop)]
pub(crate) struct PrintsRead<'a> {
    pub(crate) outs: Vec<Value>,
    pub(crate) end: PrintsEnd<'a>,
}

fn judge_token(
    alloc: Global,
    system: &System,
    directory: &Directory,
    firing: Firing<'_>,
    begins: Lead<'_>,
    read: ReadToken<'_>,
) -> Result<PrintLine, NoMemory>
    requires { IsDirectoryOf system.now directory.now }
    ensures { IfOk result (λ p. print p ≡ judged_print system.now firing.entry.made.now
        firing.entry.step firing.entry.worker (Some (lead begins.entry, token read.entry))) }
{
    if begins.worker != firing.worker {
        return Ok(PrintLine::Refused(Refusal::Form));
    }
    match find_token(alloc, system, directory, &read) {
        Ok(()) => {}
        Err(Refusal::Memory(no_memory)) => return Err(no_memory),
        Err(refusal) => return Ok(PrintLine::Refused(refusal)),
    }
    if !are_called(system, firing.made, read.mentions.as_slice()) {
        return Ok(PrintLine::Refused(Refusal::Name));
    }
    if !is_step(firing.step, begins.step) {
        return Ok(PrintLine::Refused(Refusal::Step));
    }
    Ok(PrintLine::Prints(read.value))
}

fn next_print<'a>(
    alloc: Global,
    system: &System,
    directory: &Directory,
    firing: Firing<'_>,
    bytes: &'a [u8],
) -> Result<(PrintLine, &'a [u8]), NoMemory>
    requires { IsDirectoryOf system.now directory.now }
    ensures steps { IfOk result (λ next. PrintSteps system.now firing.entry.made.now
        firing.entry.step firing.entry.worker (lines_in bytes.now) next.0 (lines_in next.1.now)) }
    ensures less { IfOk result (λ next. LeavesLess next.0 next.1.now bytes.now) }
{
    let Next::Line(line, rest) = next_line(alloc, bytes)? else {
        return Ok((PrintLine::Other, bytes));
    };
    match line {
        Line::Prints(begins, read) => {
            let judged = judge_token(alloc, system, directory, firing, begins, read)?;
            Ok((judged, rest))
        }
        _ => Ok((PrintLine::Other, bytes)),
    }
}

/// The printed values at the start of the bytes.
pub(crate) fn read_prints<'a>(
    alloc: Global,
    system: &System,
    directory: &Directory,
    firing: Firing<'_>,
    bytes: &'a [u8],
) -> Result<PrintsRead<'a>, NoMemory>
    requires { IsDirectoryOf system.now directory.now }
    ensures { IfOk result (λ read. (read.outs.items, prints_end read.end)
        ≡ prints_from system.now firing.entry.made.now firing.entry.step firing.entry.worker
        (lines_in bytes.now)) }
{
    let mut outs = Vec::new(alloc);
    let mut rest = bytes;
    loop {
        let (line, more) = next_print(alloc, system, directory, firing, rest)?;
        let end = match line {
            PrintLine::Prints(value) => {
                outs.push(value)?;
                rest = more;
                continue;
            }
            PrintLine::Other => PrintsEnd::Over(rest),
            PrintLine::Refused(refusal) => PrintsEnd::Refused(refusal),
        };
        return Ok(PrintsRead { outs, end });
    }
}
