//! Why a command stops before it is done.
ghost use Rattle.std.specs.Prelude.{◌≡◌};
ghost use Rattle.rn_items.specs.Memory.{no_memory};
ghost use Rattle.rn_answering.specs.declared.stopped.Stopped.TheVariants.{NoMemory as Memory};

use crate::answer::Answer;
use rn_items::NoMemory;

/// Why a command stops before it is done.
#[derive(Debug, Drop)]
pub enum Stopped {
    /// Words, text or record are refused, by this answer.
    Refused(Answer),

    /// A read failed.
    ReadFault,

    NoMemory(NoMemory),
}

impl From<NoMemory> for Stopped {
    ghost from_gives = { λ _ e. e ≡ Memory no_memory };

    fn from(no_memory: NoMemory) -> Stopped {
        Stopped::NoMemory(no_memory)
    }
}
