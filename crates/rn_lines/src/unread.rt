//! Why nothing was read.
ghost use Rattle.std.specs.Prelude.{◌≡◌};
ghost use Rattle.rn_items.specs.Memory.{no_memory};
ghost use Rattle.rn_lines.specs.declared.unread.Unread.TheVariants.{NoMemory};

use rn_value::NoMemory;
use std::alloc::{AllocError, AllocFailed};

/// Why a reader gives nothing.
#[derive(Clone, Copy, Debug, PartialEq, Eq)]
pub enum Unread {
    /// What is asked for doesn't stand there.
    NotThere,

    /// The allocator had no memory.
    NoMemory(NoMemory),
}

impl From<AllocError> for Unread {
    ghost from_gives = { λ _ e. e ≡ NoMemory no_memory };

    fn from(error: AllocError) -> Unread {
        Unread::NoMemory(NoMemory::from(error))
    }
}

impl<T: Drop> From<AllocFailed<T>> for Unread {
    ghost from_gives = { λ _ e. e ≡ NoMemory no_memory };

    fn from(failed: AllocFailed<T>) -> Unread {
        Unread::NoMemory(NoMemory::from(failed))
    }
}
