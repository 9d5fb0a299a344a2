//! Laws over the numbers of new instances, each the contract of a function that does nothing.
ghost use Rattle.rn_acts.specs.Laws.{FiringsMayCome, NumberingKeepsCreations, NumberingKeepsKinds};
ghost use Rattle.rn_acts.specs.Laws.{NumberingKeepsNodes};

/// With the numbers of its new instances a binding makes the same instances.
pub fn numbering_keeps_creations()
    ensures { NumberingKeepsCreations }
{}

/// With the numbers of its new instances the nodes of a binding are still those of the system.
pub fn numbering_keeps_nodes()
    ensures { NumberingKeepsNodes }
{}

/// And each of their values still has its variable's kind.
pub fn numbering_keeps_kinds()
    ensures { NumberingKeepsKinds }
{}

/// The change of an enabled binding's firing may come to each table that stands for the marking.
pub fn firings_may_come()
    ensures { FiringsMayCome }
{}
