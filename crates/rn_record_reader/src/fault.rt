//! Why a record is refused.
ghost use Rattle.std.specs.Prelude.{◌≡◌};
ghost use Rattle.rn_items.specs.Memory.{no_memory};
ghost use Rattle.rn_record_reader.specs.declared.fault.RecordFault.TheVariants.{NoMemory as Memory};

use rn_value::NoMemory;
use std::alloc::AllocFailed;

/// Why a record is refused, by the number of its first bad line, from 1.
#[derive(Clone, Copy, Debug, PartialEq, Eq)]
pub enum RecordFault {
    /// The line isn't of the form that is due there, or is missing.
    Q1(u32),

    /// It names what isn't there.
    Q2(u32),

    /// It has another step than its entry.
    Q3(u32),

    /// In format 2: the values of the marks up to this line are more than 67,108,864, each counted
    /// as often as it stands there.
    Q4(u32),

    NoMemory(NoMemory),
}

impl From<NoMemory> for RecordFault {
    ghost from_gives = { λ _ e. e ≡ Memory no_memory };

    fn from(no_memory: NoMemory) -> RecordFault {
        RecordFault::NoMemory(no_memory)
    }
}

impl<T: Drop> From<AllocFailed<T>> for RecordFault {
    ghost from_gives = { λ _ e. e ≡ Memory no_memory };

    fn from(failed: AllocFailed<T>) -> RecordFault {
        RecordFault::NoMemory(NoMemory::from(failed))
    }
}
