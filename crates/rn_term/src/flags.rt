//! Flags of terms in which no variable stands, so that none is looked for there.
ghost use Rattle.std.specs.Prelude.{◌↔◌, All, IsTrue};
ghost use Rattle.rn_term.specs.link.Kept.{IsBuiltOfFlagged, IsFlagged};

use crate::term::{Ids, Term};

/// Whether a term is no variable, and all that it is built of is flagged.
pub(crate) fn is_built_of_flagged(flags: &Vec<bool>, term: &Term) -> bool
    ensures flagged { IsTrue result → IsBuiltOfFlagged flags.now.items term.now }
{
    match term {
        Term::Free => false,
        Term::Atom(_) => true,
        Term::Tuple(ids) => are_flagged(flags, ids),
        Term::List(ids) => are_flagged(flags, ids),
        Term::Cons(ids, tail) => is_flagged(flags, *tail) && are_flagged(flags, ids),
    }
}

fn are_flagged(flags: &Vec<bool>, ids: &Ids) -> bool
    ensures { IsTrue result ↔ All (IsFlagged flags.now.items) ids.now }
{
    ids.iter().all(|id| is_flagged(flags, *id))
}

/// Whether an id is flagged.
pub(crate) fn is_flagged(flags: &Vec<bool>, id: usize) -> bool
    ensures { IsTrue result ↔ IsFlagged flags.now.items id }
{
    id < flags.len() && flags[id]
}
