//! Laws over the definitions, each the contract of a function that does nothing.
ghost use Rattle.rn_unify.specs.Laws.{SaysBothInTurn, UndoGivesBack, UnifyIsSymmetric};

/// It doesn't matter which of two ids comes first.
pub fn unify_is_symmetric()
    ensures { UnifyIsSymmetric }
{}

/// Undoing to an undo mark that was taken just before gives the store back, since `unify` leaves
/// earlier marks what they lead back to.
pub fn undo_gives_back()
    ensures { UndoGivesBack }
{}

/// What a store says after two pairs of ids were made one, on the ids from before the first.
pub fn says_both_in_turn()
    ensures { SaysBothInTurn }
{}
