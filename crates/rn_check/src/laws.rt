//! Laws over what the checker accepts, each the contract of a function that does nothing.
ghost use Rattle.rn_check.specs.Laws.{CheckedExpressionsHaveKinds, CheckedSystemsAreGood};
ghost use Rattle.rn_check.specs.Laws.{CheckedTextsAreGood};

/// An expression in which nothing is broken has exactly the kinds that come of its pattern.
pub fn checked_expressions_have_kinds()
    ensures { CheckedExpressionsHaveKinds }
{}

/// A plain form that is well formed, and in which nothing is broken, means a good system.
pub fn checked_systems_are_good()
    ensures { CheckedSystemsAreGood }
{}

/// A text in which nothing is broken means a good system.
pub fn checked_texts_are_good()
    ensures { CheckedTextsAreGood }
{}
