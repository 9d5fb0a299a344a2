//! Laws that a search for enabled bindings rests on, each the contract of a function that does
//! nothing. At each point a binding goes on with one alternative and no other, and what may be cut
//! leads to none. They hold in whatever order things are decided, so a search may choose it
//! (`docs/SEARCH.md`, 'Why it misses nothing').
ghost use Rattle.rn_search.specs.Missing.{StartIsOffered, StartsAreKept, TokensAreOffered};
ghost use Rattle.rn_search.specs.Missing.{ListsAreOffered, KnownIsSo, ResultsAreOffered};
ghost use Rattle.rn_search.specs.Missing.{CallsAreOffered, NodesHaveRoom, FewerLead, OneWay};
ghost use Rattle.rn_search.specs.Missing.{LeadingIsSolvable, KnownGuardsHold, KnownInhibitorsHold};
ghost use Rattle.rn_search.specs.Ending.{StuckLeadsNowhere, LeadingForces, DoneAreClosed};
ghost use Rattle.rn_search.specs.Ending.{ForcedAreItsValues, FoundIsSo, MadeFollows};
ghost use Rattle.rn_search.specs.Ending.{LeadingIsMade, MadeIsOne};
ghost use Rattle.rn_search.specs.Missing.{NoneLeadsNowhere, OneStart};
ghost use Rattle.rn_search.specs.Making.{ForcedAreMade};
ghost use Rattle.rn_search.specs.Room.{RoomFalls};
ghost use Rattle.rn_search.specs.Allowing.{StartIsAllowed, TokensAreAllowed, ListsAreAllowed};
ghost use Rattle.rn_search.specs.Allowing.{ResultsAreAllowed, CallsAreAllowed};
ghost use Rattle.rn_search.specs.Leaving.{LeftIsAsked, AskedIsLeft, NoneLeftIsDone};
ghost use Rattle.rn_search.specs.Leaving.{LeftOutIsClosed, LeftIsNew};
ghost use Rattle.rn_search.specs.Needing.{StartsFindTokens, StartsFindRoom};
ghost use Rattle.rn_search.specs.Narrowing.{KnownTokenIsIt, KnownFirstPart, EquatedTokenIsIt};
ghost use Rattle.rn_search.specs.Parting.{KnownPartsHold};
ghost use Rattle.rn_search.specs.Solving.{WholeIsOnly};
ghost use Rattle.rn_search.specs.Standing.{NoneAreSound, SoundByOne, SoundByFewer};
ghost use Rattle.rn_search.specs.Standing.{SoundAreRight};
ghost use Rattle.rn_search.specs.Taking.{TakenAreThere, KnownListsAreThere};

use rn_channel::calls_need_levels;

/// Each binding that is looked for, and follows decisions, goes on with an alternative of each
/// point at which a decision may be made.
pub fn nothing_is_missed()
    ensures start { StartIsOffered }
    ensures starts { StartsAreKept }
    ensures tokens { TokensAreOffered }
    ensures lists { ListsAreOffered }
    ensures known { KnownIsSo }
    ensures results { ResultsAreOffered }
    ensures calls { CallsAreOffered }
{}

/// What leads to something can be satisfied, its nodes aren't too deep, its guards, their
/// parts and inhibitor arcs hold as soon as they are known, and what it takes is there as often. So a branch without
/// one of these has nothing.
pub fn what_may_be_cut()
    ensures solvable { LeadingIsSolvable }
    ensures room { NodesHaveRoom }
    ensures guards { KnownGuardsHold }
    ensures parts { KnownPartsHold }
    ensures inhibitors { KnownInhibitorsHold }
    ensures taken { TakenAreThere }
    ensures lists { KnownListsAreThere }
{
    calls_need_levels();
}

/// In the place of each arc of a start that finds a token there is one. So a start of which one of
/// these places is empty has nothing.
pub fn starts_find_tokens()
    ensures { StartsFindTokens }
{}

/// In a place with a capacity, where a start that calls nothing has neither flexible nor clear arcs,
/// the tokens and the arcs that put one there are no more than the capacity and the arcs that take
/// one. So a start without such room has nothing.
pub fn starts_find_room()
    ensures { StartsFindRoom }
{}

/// Where the inscription of an arc, or its first part, is known, just the tokens that have that
/// value lead on; and where a guard asks that the inscription is the same as an expression that is
/// known, just those with the value of that.
pub fn tokens_are_narrowed()
    ensures whole { KnownTokenIsIt }
    ensures first { KnownFirstPart }
    ensures equated { EquatedTokenIsIt }
{}

/// It goes on with one alternative of a point alone, which is a decision, and follows fewer
/// decisions too.
pub fn one_way()
    ensures fewer { FewerLead }
    ensures none { NoneLeadsNowhere }
    ensures one { OneWay }
    ensures start { OneStart }
{}

/// Where nothing may come in and something is left, nothing that is looked for follows.
pub fn stuck_means_none()
    ensures stuck { StuckLeadsNowhere }
    ensures unforced { LeadingForces }
    ensures closed { DoneAreClosed }
{}

/// Where nothing is left, what follows is made of the nodes that were entered and the values that
/// are forced. That is one binding, which follows, and is looked for, where it has the shape,
/// agrees and fits.
pub fn what_is_found()
    ensures values { ForcedAreItsValues }
    ensures so { FoundIsSo }
    ensures follows { MadeFollows }
    ensures made { LeadingIsMade }
    ensures one { MadeIsOne }
    ensures only { WholeIsOnly }
{}

/// What may still be decided falls with each decision.
pub fn room_falls()
    ensures { RoomFalls }
{}

/// An instance to which decisions force an expression exists already, or is made by a node that
/// was entered. So the node that makes the instance of a call is known.
pub fn forced_are_made()
    ensures { ForcedAreMade }
{}

/// What a search keeps of its decisions holds of none, of one more that may be made, and of the
/// first ones.
pub fn sound_decisions()
    ensures none { NoneAreSound }
    ensures more { SoundByOne }
    ensures fewer { SoundByFewer }
    ensures right { SoundAreRight }
{}

/// Which points may be offered: each of their alternatives that is a decision may be made.
pub fn points_are_allowed()
    ensures start { StartIsAllowed }
    ensures tokens { TokensAreAllowed }
    ensures lists { ListsAreAllowed }
    ensures results { ResultsAreAllowed }
    ensures calls { CallsAreAllowed }
{}

/// What is left to be decided, as a list: what is asked and not decided. Where nothing of it may
/// come in, nothing may.
pub fn what_is_left()
    ensures asked { LeftIsAsked }
    ensures left { AskedIsLeft }
    ensures done { NoneLeftIsDone }
    ensures closed { LeftOutIsClosed }
    ensures fresh { LeftIsNew }
{}
