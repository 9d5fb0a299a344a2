//! Laws over the definitions, each the contract of a function that does nothing.
ghost use Rattle.rn_term.specs.GroundTerms.{ForcedIsGround, GroundIsForced};
ghost use Rattle.rn_term.specs.Laws.{TermsExtend};
ghost use Rattle.rn_term.specs.Undoing.{MarksLeadBack, MarksStay};

/// What a store says with one more term: the assignments from before go on with each value that the
/// term has under them, and there are no others.
pub fn terms_extend()
    ensures { TermsExtend }
{}

/// A term without unbound variables is forced: all assignments of the store give it one value.
pub fn ground_is_forced()
    ensures { GroundIsForced }
{}

/// And no other term of a store is: just the terms without unbound variables have one value under
/// all assignments.
pub fn forced_is_ground()
    ensures { ForcedIsGround }
{}

/// Undoing to an undo mark gives the store as it was when the mark was taken, where no earlier mark
/// was undone since.
pub fn marks_lead_back()
    ensures { MarksLeadBack }
{}

/// A mark that isn't later than a store isn't later after any call but `undo`.
pub fn marks_stay()
    ensures { MarksStay }
{}
