//! Laws over what a firing leaves, each the contract of a function that does nothing.
ghost use Rattle.rn_model.specs.FiringLaws.{NextAfterFiring, InstancesAfterFiring};
ghost use Rattle.rn_model.specs.FiringLaws.{OldTokensAfterFiring, NewTokensAfterFiring};
ghost use Rattle.rn_model.specs.FiringLaws.{NumberingKeepsDemands, FiringsMoveTokens};
ghost use Rattle.rn_model.specs.FiringLaws.{EachNumberIsThere};
ghost use Rattle.rn_model.specs.CapacityLaws.{InitialKeepsCapacities, FiringsKeepCapacities};
ghost use Rattle.rn_model.specs.CapacityLaws.{RunsKeepCapacities};

/// A firing gives the next numbers to the creations of its binding: after it those instances are
/// there that were, and one of the net of each creation.
pub fn firings_give_numbers()
    ensures next { NextAfterFiring }
    ensures instances { InstancesAfterFiring }
{}

/// How often each value is in a place after a firing: in one of an instance that was there, and in
/// one of a new instance.
pub fn tokens_after_firing_are_counted()
    ensures old { OldTokensAfterFiring }
    ensures new { NewTokensAfterFiring }
{}

/// What an enabled binding takes and clears at an instance that is there doesn't change as the new
/// instances get their numbers; and what a place holds, loses and gets adds up.
pub fn firings_move_tokens()
    ensures demands { NumberingKeepsDemands }
    ensures moved { FiringsMoveTokens }
{}

/// At the end of a run of a good system exactly those instances are there whose numbers are at
/// least 1 and below the next one.
pub fn each_number_is_there()
    ensures { EachNumberIsThere }
{}

/// No place holds more tokens than its capacity: at the initial marking of a good system, after the
/// firing of an enabled binding, and at the end of each run.
pub fn runs_keep_capacities()
    ensures initial { InitialKeepsCapacities }
    ensures kept { FiringsKeepCapacities }
    ensures ends { RunsKeepCapacities }
{}
