//! Whether a search goes on.

ghost use Rattle.std.specs.Prelude.{IfErr};

use rn_items::NoMemory;

/// What a search asks before each of its steps: whether it goes on.
pub trait Asked {
    /// Why a search ends without an answer.
    type Halt: From<NoMemory> + Drop;

    /// It may end a search for this reason.
    ghost halts: { Self.Halt → Type 0 };

    /// An error where the search has to end, when so much was spent.
    fn go_on(&self, spent: u64) -> Result<(), Self::Halt>
        ensures { IfErr result (λ halt. halts halt) };
}

/// It never ends a search, which so ends without an answer only where it has no memory.
#[derive(Clone, Copy, Debug, PartialEq, Eq)]
pub struct ToTheEnd;

impl Asked for ToTheEnd {
    type Halt = NoMemory;

    ghost halts = { λ _. ⊥ };

    fn go_on(&self, _spent: u64) -> Result<(), NoMemory> {
        Ok(())
    }
}
