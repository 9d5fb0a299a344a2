//! A flag by which others stop a search.

ghost use Rattle.std.specs.Prelude.{◌≡◌};

use crate::asked::Asked;
use rn_items::NoMemory;
use std::sync::atomic::{AtomicBool, Ordering};

/// Why a search that may be stopped ends without an answer.
#[derive(Clone, Copy, Debug, PartialEq, Eq)]
pub enum Halt {
    NoMemory(NoMemory),
    /// The flag was raised.
    Stopped,
}

impl From<NoMemory> for Halt {
    ghost use Rattle.rn_items.specs.Memory.{no_memory};
    ghost use Rattle.rn_choices.specs.declared.flag.Halt.TheVariants.{NoMemory as OutOfMemory};

    ghost from_gives = { λ _ halt. halt ≡ OutOfMemory no_memory };

    fn from(no_memory: NoMemory) -> Halt {
        Halt::NoMemory(no_memory)
    }
}

/// A flag that threads share. Once it is raised, searches that ask it end.
#[derive(Drop)]
pub struct Flag {
    raised: AtomicBool,
}

impl Flag {
    /// A flag that isn't raised.
    pub fn new() -> Flag {
        Flag {
            raised: AtomicBool::new(false),
        }
    }

    /// Raises it, for good.
    pub fn raise(&self) {
        self.raised.store(true, Ordering::SeqCst);
    }

    pub fn is_raised(&self) -> bool {
        self.raised.load(Ordering::SeqCst)
    }
}

impl Asked for Flag {
    ghost use Rattle.rn_choices.specs.declared.flag.Halt.TheVariants.{Stopped};

    type Halt = Halt;

    ghost halts = { λ halt. halt ≡ Stopped };

    fn go_on(&self, _spent: u64) -> Result<(), Halt> {
        if self.is_raised() {
            return Err(Halt::Stopped);
        }
        Ok(())
    }
}
