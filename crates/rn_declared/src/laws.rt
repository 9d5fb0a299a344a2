//! Laws over patterns of kinds, each the contract of a function that does nothing.
ghost use Rattle.rn_declared.specs.PatternLaws.{PatternsShareKinds, BothGiveTheirKinds};

/// Patterns share a kind exactly where some kind comes of both.
pub fn patterns_share_kinds()
    ensures { PatternsShareKinds }
{}

/// Of what two patterns have in common come exactly the kinds that come of both.
pub fn both_give_their_kinds()
    ensures { BothGiveTheirKinds }
{}
