//! The law over what texts spell, the contract of a function that does nothing.
ghost use Rattle.rn_spelled.specs.SpelledForms.{SpelledFormsAreWellFormed};

/// What a text spells is well formed.
pub fn spelled_forms_are_well_formed()
    ensures { SpelledFormsAreWellFormed }
{}
