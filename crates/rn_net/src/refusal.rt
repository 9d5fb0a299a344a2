//! Why a text is no system.
ghost use Rattle.std.specs.Prelude.{◌≡◌};
ghost use Rattle.rn_items.specs.Memory.{no_memory};
ghost use Rattle.rn_net.specs.declared.refusal.Refusal.TheVariants.{NoMemory as OutOfMemory};

use rn_notation::Spot;
use rn_value::NoMemory;

/// Why a text is no system, with the spot of the fault.
#[derive(Clone, Copy, Debug, PartialEq, Eq)]
pub enum Refusal {
    /// A character that begins no token, or a backslash in a closed text that is no escape.
    P1(Spot),

    /// The first token that can't follow, or the end.
    P2(Spot),

    /// A number above 9223372036854775807.
    P3(Spot),

    /// A byte from which on the text is no UTF-8.
    P4(Spot),

    /// The token that opens level 65, or the 257th operator of an inscription.
    P5(Spot),

    /// The text has more than 4194304 bytes. The spot is 1:1.
    P6(Spot),

    /// The quote of a text that isn't closed on its line.
    P7(Spot),

    NoMemory(NoMemory),
}

impl From<NoMemory> for Refusal {
    ghost from_gives = { λ _ refusal. refusal ≡ OutOfMemory no_memory };

    fn from(no_memory: NoMemory) -> Refusal {
        Refusal::NoMemory(no_memory)
    }
}
