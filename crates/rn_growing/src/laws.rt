//! Laws on decisions and on bindings that follow them, each the contract of a function that does
//! nothing. They speak of lists of decisions and of no store, so a search that keeps such a list
//! knows what may come in and what stays forced (`docs/SEARCH.md`, 'Why it misses nothing').
ghost use Rattle.rn_growing.specs.Following.{FollowersAreDecided, ClosedDecisionsDecide};
ghost use Rattle.rn_growing.specs.Following.{FollowsOn, EachIsDecided, GoodHaveFewCreations};
ghost use Rattle.rn_growing.specs.Following.{NewAfterOne, EnteredByMore, ForcedByMore};
ghost use Rattle.rn_growing.specs.Following.{MayComeByMore, NewEntries, NewFinds, NewValues};
ghost use Rattle.rn_growing.specs.Kinded.{KindedForceKinds};

/// What decisions in turn say of each binding that follows them; and where no further one may come
/// in, it is derived exactly where they decide all of its items and force its variables.
pub fn followers_are_decided()
    ensures followers { FollowersAreDecided }
    ensures closed { ClosedDecisionsDecide }
    ensures further { FollowsOn }
    ensures each { EachIsDecided }
{}

/// What is new to decisions after one more of them, and what stays so after more: which nodes were
/// entered, what is forced, and what may come in.
pub fn more_decisions()
    ensures fresh { NewAfterOne }
    ensures entered { EnteredByMore }
    ensures forced { ForcedByMore }
    ensures may_come { MayComeByMore }
{}

/// What is new to decisions is just what `was_entered`, `was_found` and `was_computed` deny.
pub fn new_is_undecided()
    ensures entry { NewEntries }
    ensures found { NewFinds }
    ensures computed { NewValues }
{}

/// A binding may be opened for each good system.
pub fn good_systems_open()
    ensures { GoodHaveFewCreations }
{}

/// Where decisions bring in what has its kind, and some assignment satisfies them, what they force
/// has its kind.
pub fn kinded_decisions_force_kinds()
    ensures { KindedForceKinds }
{}
