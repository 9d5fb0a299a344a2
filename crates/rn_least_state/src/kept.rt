//! A state of a least run in a desk.
ghost use Rattle.std.specs.Prelude.{length};
ghost use Rattle.rn_fire.specs.States.{author_of, logged};

use crate::state::LeastState;
use rn_desk::Kept;
use rn_fire::Setup;
use rn_model::Entry;

impl Kept for LeastState {
    type Item = Entry;

    type Fixed = Setup;

    ghost entries = { logged };

    ghost author = { author_of };

    ghost fixed = { λ s. s.setup };

    fn length(&self) -> u64 {
        self.state.length()
    }
}
