//! Why tokens are read as no expression or inscription.
ghost use Rattle.std.specs.Prelude.{◌≡◌};
ghost use Rattle.rn_items.specs.Memory.{no_memory};
ghost use Rattle.rn_inscript.specs.declared.fault.InscriptFault.TheVariants.{NoMemory as OutOfMemory};
ghost use Rattle.rn_inscript.specs.link.Faults.{inscript_fault};

use rn_reading::ReadFault;
use rn_value::NoMemory;
use std::alloc::{AllocError, AllocFailed};

/// Why no expression or inscription was read, with the index of a token.
#[derive(Clone, Copy, Debug, PartialEq, Eq)]
pub enum InscriptFault {
    /// The first token that can't follow. The number of tokens stands for the end.
    P2(usize),

    /// The token that opens level 65, or the 257th operator.
    P5(usize),

    NoMemory(NoMemory),
}

impl From<NoMemory> for InscriptFault {
    ghost from_gives = { λ _ fault. fault ≡ OutOfMemory no_memory };

    fn from(no_memory: NoMemory) -> InscriptFault {
        InscriptFault::NoMemory(no_memory)
    }
}

impl From<AllocError> for InscriptFault {
    ghost from_gives = { λ _ fault. fault ≡ OutOfMemory no_memory };

    fn from(error: AllocError) -> InscriptFault {
        InscriptFault::NoMemory(NoMemory::from(error))
    }
}

impl<T: Drop> From<AllocFailed<T>> for InscriptFault {
    ghost from_gives = { λ _ fault. fault ≡ OutOfMemory no_memory };

    fn from(failed: AllocFailed<T>) -> InscriptFault {
        InscriptFault::NoMemory(NoMemory::from(failed))
    }
}

impl From<ReadFault> for InscriptFault {
    ghost from_gives = { λ read fault. fault ≡ inscript_fault read };

    fn from(fault: ReadFault) -> InscriptFault {
        match fault {
            ReadFault::Stopped(at) => InscriptFault::P2(at),
            ReadFault::TooFar(at) => InscriptFault::P5(at),
            ReadFault::NoMemory(no_memory) => InscriptFault::NoMemory(no_memory),
        }
    }
}
