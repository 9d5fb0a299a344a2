//! Laws over sessions, each the contract of a function that does nothing.
ghost use Rattle.rn_served.specs.Listed.{NumbersAreOfList};
ghost use Rattle.rn_served.specs.Undoing.{OneOutcome, UndoGivesAllBack, UndoGivesBack};

/// The law of undo. After a firing that was done or that ended the run, `undo 1` is done and gives the
/// entries of before, and so the same marking, next number, list and marks. After K such firings the
/// same is true of `undo K`.
pub fn undo_laws()
    ensures one { UndoGivesBack }
    ensures all { UndoGivesAllBack }
    ensures outcome { OneOutcome }
{}

/// The K-th binding of the list of all that are enabled is the one with the number K.
pub fn number_laws()
    ensures { NumbersAreOfList }
{}
