//! Laws of migrated texts.
ghost use Rattle.rn_migrate.specs.Laws.{SamePartsAreChecked, MigratedTextsAreAccepted};
ghost use Rattle.rn_migrate.specs.Laws.{OneSystemIsRead};

use rn_net::net_laws;
use rn_print::printing_laws;

/// The migrated text of an accepted net text is accepted with the same system.
///
/// It does nothing: its clauses say what holds of all net texts.
pub fn migration_laws()
    ensures same_parts { SamePartsAreChecked }
    ensures accepted { MigratedTextsAreAccepted }
    ensures one_system { OneSystemIsRead }
{
    // For its clause: a text spells one system at most.
    net_laws();
    // For its clause: a canonical text in notation 2, where it isn't too long, spells what it was
    // written of, but for spots.
    printing_laws();
}
