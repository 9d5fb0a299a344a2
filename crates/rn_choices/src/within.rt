//! A search that may cost only so much.

ghost use Rattle.std.specs.Prelude.{⊤};
ghost use Rattle.rn_choices.specs.Cutting.{CutBy};

use crate::asked::Asked;
use rn_items::NoMemory;

/// Why a search that may cost only so much ends without an answer.
#[derive(Debug, Drop)]
pub enum Cut<H> {
    /// What it asks besides ended it.
    Halt(H),
    /// It has cost as much as it may.
    Spent,
}

impl<H: From<NoMemory>> From<NoMemory> for Cut<H> {
    ghost from_gives = { λ _ _. ⊤ };

    fn from(error: NoMemory) -> Cut<H> {
        Cut::Halt(H::from(error))
    }
}

/// It ends a search once so much was spent, and else where another ends it.
#[derive(Drop)]
pub struct Within<'a, A> {
    pub asked: &'a A,
    pub most: u64,
}

impl<'a, A: Asked> Asked for Within<'a, A> {
    type Halt = Cut<A::Halt>;

    ghost halts = { CutBy A.halts };

    fn go_on(&self, spent: u64) -> Result<(), Cut<A::Halt>> {
        if spent >= self.most {
            return Err(Cut::Spent);
        }
        match self.asked.go_on(spent) {
            Ok(()) => Ok(()),
            Err(halt) => Err(Cut::Halt(halt)),
        }
    }
}
