//! Laws over moves, each the contract of a function that does nothing.
ghost use Rattle.rn_moves.specs.Laws.{FirstIsInitial, MovesAddUp, MovesAreOne, MovesTakeWhatIsThere};

/// The marking after the first firings of a run is what has come by then less what has left, place by
/// place. The moves of the start are the initial marking.
pub fn moves_add_up()
    ensures first { FirstIsInitial }
    ensures run { MovesAddUp }
{}

/// No firing of a run takes what isn't there.
pub fn moves_take_what_is_there()
    ensures { MovesTakeWhatIsThere }
{}

/// A log has only one list of moves.
pub fn moves_are_one()
    ensures { MovesAreOne }
{}
