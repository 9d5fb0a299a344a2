//! Why tokens are read as no phrase.
ghost use Rattle.std.specs.Prelude.{◌≡◌};
ghost use Rattle.rn_items.specs.Memory.{no_memory};
ghost use Rattle.rn_reading.specs.declared.fault.ReadFault.TheVariants.{NoMemory as OutOfMemory};
ghost use Rattle.rn_reading.specs.declared.fault.TextFault.TheVariants.{NoMemory as NoRoom};

use rn_notation::{LexFault, Spot};
use rn_value::NoMemory;
use std::alloc::{AllocError, AllocFailed};

/// Why no phrase was read, with the index of a token. The number of tokens stands for the end.
#[derive(Clone, Copy, Debug, PartialEq, Eq)]
pub enum ReadFault {
    /// The first token that can't follow.
    Stopped(usize),

    /// The first token that goes too far.
    TooFar(usize),

    NoMemory(NoMemory),
}

/// Why a whole text isn't one phrase, with the spot of the fault.
#[derive(Clone, Copy, Debug, PartialEq, Eq)]
pub enum TextFault {
    /// The first token that can't follow, or the end.
    Stopped(Spot),

    /// The first token that goes too far.
    TooFar(Spot),

    /// A fault in the tokens, before which each token can follow.
    Lexical(LexFault),

    NoMemory(NoMemory),
}

impl From<NoMemory> for ReadFault {
    ghost from_gives = { λ _ fault. fault ≡ OutOfMemory no_memory };

    fn from(no_memory: NoMemory) -> ReadFault {
        ReadFault::NoMemory(no_memory)
    }
}

impl From<AllocError> for ReadFault {
    ghost from_gives = { λ _ fault. fault ≡ OutOfMemory no_memory };

    fn from(error: AllocError) -> ReadFault {
        ReadFault::NoMemory(NoMemory::from(error))
    }
}

impl<T: Drop> From<AllocFailed<T>> for ReadFault {
    ghost from_gives = { λ _ fault. fault ≡ OutOfMemory no_memory };

    fn from(failed: AllocFailed<T>) -> ReadFault {
        ReadFault::NoMemory(NoMemory::from(failed))
    }
}

impl From<NoMemory> for TextFault {
    ghost from_gives = { λ _ fault. fault ≡ NoRoom no_memory };

    fn from(no_memory: NoMemory) -> TextFault {
        TextFault::NoMemory(no_memory)
    }
}
