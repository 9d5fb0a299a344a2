//! Records of format 1 in format 2.
ghost use Rattle.std.specs.Prelude.{◌≡◌, ◌≤◌, All, length, IfErr, IfOk};
ghost use Rattle.rn_model.specs.Good.{Good};
ghost use Rattle.rn_record.specs.RecordText.{first_names, names_at_end, record_text};
ghost use Rattle.rn_value.specs.Names.{AreNamed};
ghost use Rattle.rn_record_reader.specs.Runs.{TellsRecord, longest_record};
ghost use Rattle.rn_record_reader.specs.link.RunsAhead.{FaultTells};
ghost use Rattle.rn_migrate.specs.Records.{MigratesRecord};

use rn_model::{Entry, System, Told};
use rn_record::{first_names, push_made, put_marks};
use rn_record_reader::{RecordFault, read_record, record_laws};
use rn_value::{Names, NoMemory};
use std::alloc::Global;

// The names of the nets of all instances after these entries.
fn names_of(alloc: Global, system: &System, entries: &[Entry]) -> Result<Names, NoMemory>
    ensures { IfOk result (λ names. names ≡ names_at_end system.now first_names entries.now) }
{
    let mut names = first_names(alloc)?;
    for entry in entries {
        match entry {
            Entry::Fire {
                worker: _,
                binding,
                outs: _,
            } => push_made(alloc, system, binding, &mut names)?,
            Entry::End(_) => {}
        }
    }
    Ok(names)
}

// The text in format 2 of what is told by these bytes, the text in format 1. The lines of the entries
// are the same in both, so they are copied, and only the marks are written anew.
fn rewritten(alloc: Global, system: &System, bytes: &[u8], told: &Told) -> Result<Vec<u8>, NoMemory>
    requires text { bytes.now ≡ record_text 1 system.now told.now }
    requires named { All (λ line. All (AreNamed (names_at_end system.now first_names told.now.entries))
        line.values) told.now.marks }
    ensures { IfOk result (λ text. text.items ≡ record_text 2 system.now told.now) }
{
    let names = names_of(alloc, system, told.entries.as_slice())?;
    let mut marks = Vec::new(alloc);
    put_marks(alloc, system, 1, told.marks.as_slice(), &names, &mut marks)?;
    let mut text = Vec::from_slice(alloc, b"run 2\n")?;
    text.extend_from_slice(&bytes[..bytes.len() - marks.len()])?;
    put_marks(alloc, system, 2, told.marks.as_slice(), &names, &mut text)?;
    Ok(text)
}

/// The record of format 2 that tells what these bytes tell in format 1; or their first bad line.
///
/// The bytes are at most 64 MiB.
pub fn migrate_record(alloc: Global, system: &System, bytes: &[u8]) -> Result<Vec<u8>, RecordFault>
    requires good { Good system.now }
    requires few { length bytes.now ≤ longest_record }
    ensures told { IfOk result (λ text. MigratesRecord system.now bytes.now text.items) }
    ensures refused { IfErr result (FaultTells (TellsRecord system.now 1 bytes.now)) }
{
    // For its clauses: bytes that tell a run are its text, the marks of which name instances of the
    // run, and what format 1 tells is told in format 2 too.
    record_laws();
    let told = read_record(alloc, system, 1, bytes)?;
    Ok(rewritten(alloc, system, bytes, &told)?)
}
