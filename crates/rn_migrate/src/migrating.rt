//! The migrated text of a system.
ghost use Rattle.std.specs.Prelude.{◌≡◌, IfOk};
ghost use Rattle.rn_migrate.specs.Migrated.{migrated_text};

use rn_items::NoMemory;
use rn_net::Plain;
use rn_print::print_in;
use std::alloc::Global;

/// The canonical text, in notation 2, of the same channels and nets, in UTF-8.
///
/// It recurses as deep as expressions, conditions, kinds and constants nest.
pub fn migrate_text(alloc: Global, plain: &Plain) -> Result<Vec<u8>, NoMemory>
    ensures { IfOk result (λ bytes. bytes.items ≡ migrated_text plain.now) }
{
    print_in(alloc, 2, plain)
}
