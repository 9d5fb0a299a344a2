//! The text of a whole run.
ghost use Rattle.std.specs.Prelude.{◌≡◌, IfOk};
ghost use Rattle.rn_record.specs.RecordText.{IsFormat, header_text, record_text};
ghost use Rattle.rn_record.specs.Writable.{HasText};

use crate::entries::put_entries;
use crate::marks::put_marks;
use crate::naming::first_names;
use rn_model::{Entry, MarkLine, System, Told};
use rn_value::NoMemory;
use std::alloc::Global;

/// The text of a run: the lines of its firings, of its end and of its marks.
///
/// ```text
/// 1 w1 main[1].t x=5
/// 1 w1 > [10,"a"]
/// end dead
/// main[1].q []
/// ```
///
/// An instance that a firing makes is written with its number, which is the next one after those of
/// all instances made before. In format 2 a line `run 2` stands first, and equal tokens of a mark are
/// counted, as `main[1].q []*2`.
pub fn write_told(
    alloc: Global,
    system: &System,
    format: u32,
    told: &Told,
) -> Result<Vec<u8>, NoMemory>
    requires format { IsFormat format }
    requires text { HasText system.now told.now }
    ensures { IfOk result (λ text. text.items ≡ record_text format system.now told.now) }
{
    write_run(
        alloc,
        system,
        format,
        told.entries.as_slice(),
        told.marks.as_slice(),
    )
}

/// The first line of a record.
pub(crate) fn header(format: u32) -> &'static [u8]
    ensures { result.now ≡ header_text format }
{
    if format == 1 { b"" } else { b"run 2\n" }
}

/// The text of the run of these entries and marks, as `write_told` gives it.
pub fn write_run(
    alloc: Global,
    system: &System,
    format: u32,
    entries: &[Entry],
    marks: &[MarkLine],
) -> Result<Vec<u8>, NoMemory>
    requires format { IsFormat format }
    requires text { HasText system.now (record { entries = entries.now; marks = marks.now }) }
    ensures { IfOk result (λ text. text.items
        ≡ record_text format system.now (record { entries = entries.now; marks = marks.now })) }
{
    let mut names = first_names(alloc)?;
    let mut text = Vec::from_slice(alloc, header(format))?;
    put_entries(alloc, system, entries, &mut names, &mut text)?;
    put_marks(alloc, system, format, marks, &names, &mut text)?;
    Ok(text)
}
