//! Laws over rounds and over what is forced, each the contract of a function that does nothing.
ghost use Rattle.rn_model.specs.RoundLaws.{RoundsHoldThem, ClosedAreRounds, ClosedDecide};
ghost use Rattle.rn_model.specs.RoundLaws.{MayEnterByMore, ForcedByMore, ForcedTermsAreOwn};
ghost use Rattle.rn_model.specs.RoundLaws.{ForcedExpressionsAreOwn, TargetsAreChildren, StaysIn};
ghost use Rattle.rn_model.specs.KindLaws.{SolutionsHaveKinds, ForcedHaveKinds, RoundsAreItems};
ghost use Rattle.rn_model.specs.KindLaws.{EnabledAreFoundAt, HolesHaveKinds, KindsFitComparisons};

/// Items that come in one at a time, each when it may by those before it, are in after some round.
/// Where no further item may come in, they are exactly those that the rounds hold, and so they are
/// all items and force all variables exactly where the binding is derived.
pub fn items_come_in()
    ensures rounds { RoundsHoldThem }
    ensures closed { ClosedAreRounds }
    ensures derived { ClosedDecide }
{}

/// What is in stays in; what may come in by some items may come in by more, and what some items
/// force is forced by more.
pub fn more_items_force_more()
    ensures stays { StaysIn }
    ensures enter { MayEnterByMore }
    ensures forced { ForcedByMore }
{}

/// What is forced is the binding's own: any term, the expression at a site, and the target of a
/// downlink, which is the child's instance.
pub fn forced_terms_are_own()
    ensures terms { ForcedTermsAreOwn }
    ensures expressions { ForcedExpressionsAreOwn }
    ensures targets { TargetsAreChildren }
{}

/// Where some assignment satisfies equations whose sides share kinds, one does that gives each
/// variable a value of its kind. So in a good system, at a marking whose tokens have their kinds,
/// what the items of a binding force has its kind before anything agrees, and what is computed
/// from that meets no value of a wrong kind. It holds of what is in after some rounds; and what
/// the arcs of an enabled binding find is at the marking.
pub fn forced_values_have_kinds()
    ensures solutions { SolutionsHaveKinds }
    ensures forced { ForcedHaveKinds }
    ensures holes { HolesHaveKinds }
    ensures comparisons { KindsFitComparisons }
    ensures items { RoundsAreItems }
    ensures enabled { EnabledAreFoundAt }
{}
