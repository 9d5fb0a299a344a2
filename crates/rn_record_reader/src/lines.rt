//! The lines of a record, one after the other.
ghost use Rattle.std.specs.Prelude.{◌<◌, IfOk};
ghost use Rattle.rn_record_reader.specs.Lines.{lines_in};
ghost use Rattle.rn_record_reader.specs.link.LinesAhead.{ComesFirst, IsShorter};

use rn_lines::{Line, Unread, first_line, read_line};
use rn_value::NoMemory;
use std::alloc::Global;

/// What comes next in a record.
#[derive(Debug, Drop)]
pub(crate) enum Next<'a> {
    /// Nothing: the record ends here.
    End,

    /// What is no line, or isn't ended by a line feed.
    Broken,

    /// A line, and the bytes after its line feed.
    Line(Line<'a>, &'a [u8]),
}

/// What comes next in these bytes.
pub(crate) fn next_line(alloc: Global, bytes: &[u8]) -> Result<Next<'_>, NoMemory>
    ensures follows { IfOk result (λ next. ComesFirst next (lines_in bytes.now)) }
    ensures shorter { IfOk result (λ next. IsShorter next bytes.now) }
{
    if bytes.is_empty() {
        return Ok(Next::End);
    }
    let Some((text, rest)) = first_line(bytes) else {
        return Ok(Next::Broken);
    };
    match read_line(alloc, text) {
        Ok(line) => Ok(Next::Line(line, rest)),
        Err(Unread::NotThere) => Ok(Next::Broken),
        Err(Unread::NoMemory(no_memory)) => Err(no_memory),
    }
}
