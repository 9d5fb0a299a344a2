//! Laws of readings, as the contract of a function that does nothing.
ghost use Rattle.rn_inscript.specs.Laws.{OneExpression, OneInscription, OneLongestExpression};
ghost use Rattle.rn_inscript.specs.Laws.{OneLongestInscription, NextDecidesExpression};
ghost use Rattle.rn_inscript.specs.Laws.{NextDecidesInscription};

/// What a reader of expressions and inscriptions may rely on: tokens have one reading.
#[tactic(auto, using(crate::proofs::OneInscription::one_inscription, crate::proofs::OneInscription::one_expression, crate::proofs::LongestLaws::next_decides))]
pub fn reading_laws()
    ensures one_expression { OneExpression }
    ensures one_inscription { OneInscription }
    ensures one_longest_expression { OneLongestExpression }
    ensures one_longest_inscription { OneLongestInscription }
    ensures next_decides_expression { NextDecidesExpression }
    ensures next_decides_inscription { NextDecidesInscription }
{}
