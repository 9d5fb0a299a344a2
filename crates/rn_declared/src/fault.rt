//! The rules of the checker, and what it reports.
ghost use Rattle.std.specs.Prelude.{◌≡◌};
ghost use Rattle.rn_items.specs.Memory.{no_memory};
ghost use Rattle.rn_declared.specs.declared.fault.CheckFault.TheVariants.{NoMemory as OutOfMemory};

use rn_notation::Spot;
use rn_value::NoMemory;

/// What a net text must keep, in the order in which broken rules count at one spot.
#[derive(Clone, Copy, Debug, PartialEq, Eq)]
pub enum Rule {
    /// Variables, places and nets that are named are declared.
    Known,

    /// No name is declared twice in its name space.
    Once,

    /// There is a net `main`.
    Main,

    /// Expressions have the kinds that are asked for.
    Kinds,

    /// A transition has at most one uplink.
    Uplink,

    /// Action variables and `step()` stand only where they may.
    Actions,

    /// Flexible and clear arcs have an inscription, and that of a clear arc is a variable.
    Inscription,

    /// A channel that is called is declared with that number of arguments.
    Channel,

    /// Nothing is longer or more than the limits allow.
    Limit,

    /// The variable of a creation has the kind of nets.
    Creation,

    /// Guards are made of comparisons.
    Comparison,

    /// A place doesn't begin with more tokens than its capacity.
    Capacity,

    /// A `flexout` arc to a place with a capacity holds no action variable.
    Counted,
}

/// A broken rule and where it is broken.
#[derive(Clone, Copy, Debug, PartialEq, Eq)]
pub struct Fault {
    pub rule: Rule,
    pub spot: Spot,
}

/// Why a net text isn't accepted: the first broken rule. `docs/CHECKS.md` has an example of each.
#[derive(Clone, Copy, Debug, PartialEq, Eq)]
pub enum CheckFault {
    /// A variable, place or net is unknown.
    C1(Spot),

    /// A name was declared before in its name space.
    C2(Spot),

    /// There is no net `main`.
    C3(Spot),

    /// An expression hasn't the kind that is asked for.
    C4(Spot),

    /// A transition has a second uplink.
    C5(Spot),

    /// An action variable or `step()` stands where it may not.
    C6(Spot),

    /// A flexible or clear arc has no inscription, or a clear arc another one than a variable.
    C7(Spot),

    /// No channel has this name and this number of arguments.
    C8(Spot),

    /// A limit is passed.
    C9(Spot),

    /// The variable of a creation hasn't the kind of nets.
    C10(Spot),

    /// A guard holds an expression without comparison.
    C11(Spot),

    /// A place begins with more tokens than its capacity.
    C12(Spot),

    /// A `flexout` arc to a place with a capacity holds an action variable.
    C13(Spot),

    NoMemory(NoMemory),
}

impl From<NoMemory> for CheckFault {
    ghost from_gives = { λ _ fault. fault ≡ OutOfMemory no_memory };

    fn from(no_memory: NoMemory) -> CheckFault {
        CheckFault::NoMemory(no_memory)
    }
}
