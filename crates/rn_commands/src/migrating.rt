//! The command `migrate`: a net text of notation 1, and its record, in notation 2.
ghost use Rattle.std.specs.Prelude.{◌≡◌, ◌≤◌, ◌++◌, IfOk, codes, length, nat_eq};
ghost use Rattle.rn_record_reader.specs.Runs.{longest_record};
ghost use Rattle.rn_answering.specs.Refusing.{Concludes};
ghost use Rattle.rn_commands.specs.Migrating.{MigrateComesTo};

use crate::replays::{parted, refused_record};
use rn_answering::{Answer, Stopped, checked, done, plain_of, refused_at};
use rn_items::NoMemory;
use rn_migrate::{migrate_record, migrate_text};
use rn_notation::Spot;
use std::alloc::Global;

// Whether a notation is the second, so that nothing is left to migrate.
fn is_second(notation: u32) -> bool
    ensures { result ≡ nat_eq notation 2 }
{
    notation == 2
}

// A net text, the line `---`, and a record.
fn parted_by_line(net: Vec<u8>, record: &[u8]) -> Result<Vec<u8>, NoMemory>
    ensures { IfOk result (λ text.
        text.items ≡ net.items ++ codes "---\n" ++ record.now) }
{
    let mut text = net;
    text.extend_from_slice(b"---\n")?;
    text.extend_from_slice(record)?;
    Ok(text)
}

/// What `migrate` comes to on this input.
pub fn migrate(alloc: Global, bytes: &[u8]) -> Result<Answer, Stopped>
    requires { length bytes.now ≤ longest_record }
    ensures { Concludes (MigrateComesTo bytes.now) result }
{
    let (net, rest) = parted(bytes);
    let plain = plain_of(alloc, net)?;
    if is_second(plain.notation) {
        let _system = checked(alloc, plain)?;
        return Err(refused_at(alloc, b"M1", Spot { line: 1, column: 1 }));
    }
    let text = migrate_text(alloc, &plain)?;
    let system = checked(alloc, plain)?;
    if net.len() == bytes.len() {
        return Ok(done(alloc, text));
    }
    match migrate_record(alloc, &system, rest) {
        Ok(migrated) => {
            let pair = parted_by_line(text, migrated.as_slice())?;
            Ok(done(alloc, pair))
        }
        Err(fault) => Err(refused_record(alloc, fault)),
    }
}
