//! Laws over changed tables, each the contract of a function that does nothing.
ghost use Rattle.rn_table.specs.Laws.{FiringsAreChanges, KeptAfterRemoval, NetsAreFew, SameIsLeft, TokensAfterChange};

/// The condition of `Table::new` holds for a good system.
pub fn nets_are_few()
    ensures { NetsAreFew }
{}

/// What a place holds after a change.
pub fn tokens_after_change()
    ensures { TokensAfterChange }
{}

/// Where a change puts back what it takes, the place stays.
pub fn same_is_left()
    ensures { SameIsLeft }
{}

/// What is kept after a removal.
pub fn kept_after_removal()
    ensures { KeptAfterRemoval }
{}

/// A change with the rows of a firing leads to the marking after the firing.
pub fn firings_are_changes()
    ensures { FiringsAreChanges }
{}
