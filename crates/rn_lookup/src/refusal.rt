//! Why a line is refused.
ghost use Rattle.std.specs.Prelude.{◌≡◌};
ghost use Rattle.rn_items.specs.Memory.{no_memory};
ghost use Rattle.rn_lookup.specs.declared.refusal.Refusal.TheVariants.{Memory};

use rn_value::NoMemory;
use std::alloc::{AllocError, AllocFailed};

/// Why a line of a record is refused, the weightiest first.
#[derive(Clone, Copy, Debug, PartialEq, Eq)]
pub enum Refusal {
    /// The line isn't of the form that is due.
    Form,

    /// It names what isn't there.
    Name,

    /// It has another step than its entry.
    Step,

    /// The values of the marks up to it are too many.
    Many,

    /// The allocator had no memory.
    Memory(NoMemory),
}

impl From<NoMemory> for Refusal {
    ghost from_gives = { λ _ e. e ≡ Memory no_memory };

    fn from(no_memory: NoMemory) -> Refusal {
        Refusal::Memory(no_memory)
    }
}

impl From<AllocError> for Refusal {
    ghost from_gives = { λ _ e. e ≡ Memory no_memory };

    fn from(error: AllocError) -> Refusal {
        Refusal::Memory(NoMemory::from(error))
    }
}

impl<T: Drop> From<AllocFailed<T>> for Refusal {
    ghost from_gives = { λ _ e. e ≡ Memory no_memory };

    fn from(failed: AllocFailed<T>) -> Refusal {
        Refusal::Memory(NoMemory::from(failed))
    }
}
