//! Laws of words.
ghost use Rattle.rn_words.specs.Laws.{AcceptedAreWithinLimits, FaultsNameTheFirst};
ghost use Rattle.rn_words.specs.Laws.{ReadsWhatIsAccepted};

/// Reading gives a command exactly where the words are accepted and give it, with numbers within
/// their limits. A fault names the first bad word: some accepted words begin with those before it,
/// and none with those up to it.
pub fn words_laws()
    ensures accepted { ReadsWhatIsAccepted }
    ensures limits { AcceptedAreWithinLimits }
    ensures first { FaultsNameTheFirst }
{}
