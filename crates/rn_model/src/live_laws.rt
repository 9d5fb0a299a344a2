//! Laws over the live part of a marking, the places that fit, and those that have room, each the
//! contract of a function that does nothing.
ghost use Rattle.rn_model.specs.LivePartLaws.{EachHasItsLivePart, LivePartIsUnique};
ghost use Rattle.rn_model.specs.LivePartLaws.{TablesHaveTheSamePart};
ghost use Rattle.rn_model.specs.FittingLaws.{PlacesFitByArcs};
ghost use Rattle.rn_model.specs.RoomLaws.{StartsFindRoom};

/// Exactly one list of lines is the live part of a marking, and it is that of each table that
/// stands for the marking too.
pub fn live_part_is_unique()
    ensures there { EachHasItsLivePart }
    ensures unique { LivePartIsUnique }
    ensures tables { TablesHaveTheSamePart }
{}

/// All places fit where those fit that some arc of some node names.
pub fn places_fit_by_arcs()
    ensures { PlacesFitByArcs }
{}

/// In a place with a capacity, where an enabled binding starts by a transition that calls nothing
/// and has neither flexible nor clear arcs there, the tokens and the arcs that put one there are no
/// more than the capacity and the arcs that take one.
pub fn starts_find_room()
    ensures { StartsFindRoom }
{}
