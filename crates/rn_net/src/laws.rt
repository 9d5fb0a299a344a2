//! Laws of net texts, as the contract of a function that does nothing.
ghost use Rattle.rn_net.specs.Laws.{OneSpelled, OneSystem, SpelledInNotation, SpelledIsNotRefused};

use rn_inscript::reading_laws;
use rn_notation::token_laws;

/// Tokens are one system at most, and a text spells one at most, in one of two notations, and is then
/// refused for no reason.
pub fn net_laws()
    ensures one_system { OneSystem }
    ensures one_text { OneSpelled }
    ensures not_refused { SpelledIsNotRefused }
    ensures notations { SpelledInNotation }
{
    // For its clauses: no text has two lists of tokens or two first faults, or one of each.
    token_laws();
    // For its clauses: tokens stand for one expression and for one inscription at most.
    reading_laws();
}
