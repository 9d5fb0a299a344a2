//! Laws of canonical texts.
ghost use Rattle.rn_print.specs.Laws.{SpotsDoNotCount, TextsAreFixed, TextsAreNotRefused};
ghost use Rattle.rn_print.specs.Laws.{TextsAreReadBack, TextsTellApart, WhatIsReadIsSame};
ghost use Rattle.rn_print.specs.Laws.{MigratedTextsAreRead};

use rn_net::net_laws;

/// The canonical text of what a text spells is read back, is fixed, and says all but spots.
///
/// It does nothing: its clauses say what holds of all plain forms.
pub fn printing_laws()
    ensures texts_are_read_back { TextsAreReadBack }
    ensures spots_do_not_count { SpotsDoNotCount }
    ensures texts_are_fixed { TextsAreFixed }
    ensures texts_tell_apart { TextsTellApart }
    ensures what_is_read { WhatIsReadIsSame }
    ensures not_refused { TextsAreNotRefused }
    ensures migrated_texts_are_read { MigratedTextsAreRead }
{
    // For its clauses: a text spells one system at most, and is then refused for no reason.
    net_laws();
}
