//! The law by which the condition of the calls holds.
ghost use Rattle.rn_live.specs.Laws.{PlacesAreFew};

/// At a table whose marking is one of a good system, the condition of `live` and `garbage` holds.
pub fn places_are_few()
    ensures { PlacesAreFew }
{}
