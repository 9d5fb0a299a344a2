//! Why a text is no weighted net.
ghost use Rattle.std.specs.Prelude.{◌≡◌};
ghost use Rattle.rn_items.specs.Memory.{no_memory};
ghost use Rattle.rn_pt.specs.declared.fault.PtFault.TheVariants.{NoMemory as OutOfMemory};

use rn_notation::Spot;
use rn_value::NoMemory;

/// Why a text is no weighted net, with the spot of the fault.
#[derive(Clone, Copy, Debug, PartialEq, Eq)]
pub enum PtFault {
    /// A character that begins no token, or a backslash in a closed text that is no escape.
    P1(Spot),

    /// A number above 9223372036854775807.
    P3(Spot),

    /// A byte from which on the text is no UTF-8.
    P4(Spot),

    /// The text has more than 4194304 bytes. The spot is 1:1.
    P6(Spot),

    /// The quote of a text that isn't closed on its line.
    P7(Spot),

    /// The first token that can't follow, or the end.
    N1(Spot),

    /// The name of an arc's place that isn't declared.
    N2(Spot),

    /// The name of a place or transition that was declared before.
    N3(Spot),

    /// A number of tokens above 10000, or a weight that is 0 or above 1000.
    N4(Spot),

    /// A name of more than 64 bytes, the name of the 1001st place or transition, the first token of
    /// the 201st arc, or 1:1 where the text of the reference net has more than 4194304 bytes.
    N5(Spot),

    NoMemory(NoMemory),
}

impl From<NoMemory> for PtFault {
    ghost from_gives = { λ _ fault. fault ≡ OutOfMemory no_memory };

    fn from(no_memory: NoMemory) -> PtFault {
        PtFault::NoMemory(no_memory)
    }
}

/// What a weighted net must keep, in the order in which broken rules count at one spot.
#[derive(Clone, Copy, Debug, PartialEq, Eq)]
pub enum Rule {
    /// The places of arcs are declared.
    Known,

    /// No place and no transition is declared twice.
    Once,

    /// Numbers of tokens and weights are within their limits.
    Amount,

    /// Names, places, transitions and arcs are within their limits.
    Limit,
}

/// A rule that is broken at a spot.
#[derive(Clone, Copy, Debug, PartialEq, Eq)]
pub struct Broken {
    pub rule: Rule,
    pub spot: Spot,
}
