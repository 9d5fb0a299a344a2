//! The lines of the marks at the end of a run, in vectors.
ghost use Rattle.std.specs.Prelude.{◌≡◌, ◌++◌, All, OnOk, flat_map};
ghost use Rattle.rn_value.specs.Names.{AreNamed};
ghost use Rattle.rn_model.specs.Systems.{net_at};
ghost use Rattle.rn_record.specs.RecordText.{IsFormat, place_name, mark_text};

use crate::mark_text::{MarkText, place_bytes};
use rn_model::{MarkLine, System};
use rn_value::{Names, NoMemory};
use rn_window::fill;
use std::alloc::Global;

/// Appends the name of a place of a net, and nothing where there is no such place.
pub fn put_place_name(
    system: &System,
    net: u32,
    place: u32,
    out: &mut Vec<u8>,
) -> Result<(), NoMemory>
    ensures { OnOk result (out.new.items
        ≡ out.old.items ++ place_name (net_at system.now net) place) }
{
    out.extend_from_slice(place_bytes(system, net, place))?;
    Ok(())
}

/// Appends the lines of marks, each a place of an instance with its tokens, in format 1 or 2.
pub fn put_marks(
    alloc: Global,
    system: &System,
    format: u32,
    lines: &[MarkLine],
    names: &Names,
    out: &mut Vec<u8>,
) -> Result<(), NoMemory>
    requires format { IsFormat format }
    requires named { All (λ line. All (AreNamed names.now) line.values) lines.now }
    ensures { OnOk result (out.new.items
        ≡ out.old.items ++ flat_map (mark_text format system.now names.now) lines.now) }
{
    for line in lines {
        let text = MarkText {
            system,
            format,
            line,
            names,
        };
        fill(alloc, &text, out)?;
    }
    Ok(())
}
