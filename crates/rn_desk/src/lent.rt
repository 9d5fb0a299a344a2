//! The state of a turn, lent for writing. Whoever has the turn is alone with the state, so it is a
//! plain borrow without a lock. What is written isn't limited here: `Desk::give` asks that there is
//! one entry more at most.
ghost use Rattle.std.specs.Prelude.{◌≡◌};
ghost use Rattle.std.specs.Borrow.{Lends, sem};
ghost use Rattle.rn_desk.specs.contracts.desk.Turn.{the_row};
ghost use Rattle.rn_desk.specs.link.Taken.{state_of, with_state};

use crate::desk::Turn;

impl<S> Turn<S> {
    /// The state. When the borrow ends, the turn has what was last written through it.
    pub fn state(&mut self) -> &mut S
        ensures* writes_back { sem 𝓛 (Lends (the_row S.row) S.row self.entry result (with_state self.old)) }
        ensures value { result.now ≡ state_of self.old }
    {
        &mut self.state
    }
}
