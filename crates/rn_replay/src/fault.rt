//! Why a replay refuses what is told.
ghost use Rattle.std.specs.Prelude.{◌≡◌};
ghost use Rattle.rn_items.specs.Memory.{no_memory};
ghost use Rattle.rn_replay.specs.declared.fault.ReplayFault.TheVariants.{NoMemory as Memory};

use rn_value::NoMemory;
use std::alloc::AllocFailed;

/// Why a replay refuses what is told, by the number of the first entry that isn't true, from 1. The
/// end is an entry too.
#[derive(Clone, Copy, Debug, PartialEq, Eq)]
pub enum ReplayFault {
    /// The binding isn't one of the system, doesn't agree or isn't derived.
    V1(u32),

    /// The marking doesn't meet the binding.
    V2(u32),

    /// The firing is undefined, or prints other values.
    V3(u32),

    /// The firing stands past the step limit, or the end isn't true.
    V4(u32),

    /// The marks after the end aren't those of what is live then.
    V5(u32),

    NoMemory(NoMemory),
}

impl From<NoMemory> for ReplayFault {
    ghost from_gives = { λ _ e. e ≡ Memory no_memory };

    fn from(no_memory: NoMemory) -> ReplayFault {
        ReplayFault::NoMemory(no_memory)
    }
}

impl<T: Drop> From<AllocFailed<T>> for ReplayFault {
    ghost from_gives = { λ _ e. e ≡ Memory no_memory };

    fn from(failed: AllocFailed<T>) -> ReplayFault {
        ReplayFault::NoMemory(NoMemory::from(failed))
    }
}
