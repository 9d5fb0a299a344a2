//! What begins at a line between entries.
ghost use Rattle.std.specs.Prelude.{IfOk};
ghost use Rattle.rn_record_reader.specs.Lines.{lines_in};
ghost use Rattle.rn_record_reader.specs.link.RunsAhead.{OpensWith};

use crate::lines::{Next, next_line};
use rn_lines::{Ending, Line};
use rn_value::NoMemory;
use std::alloc::Global;

/// What begins.
#[derive(Debug, Drop)]
pub(crate) enum Opens<'a> {
    /// A firing of this worker.
    Firing(u32),

    /// An end, with the bytes after its line.
    Ending(Ending, &'a [u8]),

    /// Nothing that may stand there.
    Neither,
}

/// What begins at the start of the bytes.
pub(crate) fn next_opening(alloc: Global, bytes: &[u8]) -> Result<Opens<'_>, NoMemory>
    ensures { IfOk result (λ opens. OpensWith (lines_in bytes.now) opens) }
{
    let Next::Line(line, rest) = next_line(alloc, bytes)? else {
        return Ok(Opens::Neither);
    };
    match line {
        Line::Fires(begins, _node) => Ok(Opens::Firing(begins.worker)),
        Line::Ends(ending) => Ok(Opens::Ending(ending, rest)),
        _other => Ok(Opens::Neither),
    }
}
