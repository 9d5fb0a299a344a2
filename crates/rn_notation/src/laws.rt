//! Laws of tokens, each the contract of a function that does nothing.
ghost use Rattle.rn_notation.specs.Laws.{OneReading, OneFault, NoFaultInTokens};
ghost use Rattle.rn_notation.specs.NamedTokens.{SignsAreNamed, WordsAreNamed};

/// What a reader of tokens may rely on: a text has one reading.
///
/// No text is two lists of tokens, or has two first faults. A text that is tokens has no fault.
pub fn token_laws()
    ensures one_reading { OneReading }
    ensures one_fault { OneFault }
    ensures no_both { NoFaultInTokens }
{}

/// The constants of `sign` are the numbers of their signs, in the order of the definitions.
#[tactic(auto, unfolding(crate::specs::Words::signs))]
pub fn names_of_signs()
    ensures { SignsAreNamed }
{}

/// The constants of `word` are the numbers of their reserved words, in the order of the
/// definitions.
#[tactic(auto, unfolding(rn_value::specs::Words::reserved_words))]
pub fn names_of_words()
    ensures { WordsAreNamed }
{}
