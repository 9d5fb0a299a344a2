//! Laws over the instances that one reaches, the contract of a function that does nothing.
ghost use Rattle.rn_reach.specs.Laws.{BindingsStayInReach, ReachDecides, ReachIsTheSame};
ghost use Rattle.rn_reach.specs.Laws.{ChangesAreReachedInBoth, FiringsChangeNoOther, OthersStay};

/// An enabled binding that starts in an instance stands only on existing instances that it reaches.
/// Where two markings have the same instances, with their nets and tokens, at all that one reaches,
/// it reaches the same in both, and the same bindings that start in it are enabled at both.
pub fn bindings_stay_in_reach()
    ensures within { BindingsStayInReach }
    ensures reached { ReachIsTheSame }
    ensures enabled { ReachDecides }
{}

/// Where some instances change, those that reach a changed one are the same before and after. In
/// each other one the same bindings start before and after.
pub fn changes_stay_in_reach()
    ensures reached { ChangesAreReachedInBoth }
    ensures others { OthersStay }
{}

/// Firings change no other instances than those on which their nodes stand and those that they make.
pub fn firings_change_no_other()
    ensures { FiringsChangeNoOther }
{}
