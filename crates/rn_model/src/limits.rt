//! The limits of systems, of bindings and of runs, as constants.
ghost use Rattle.std.specs.Prelude.{◌≡◌};
ghost use Rattle.rn_model.specs.Limits.{longest_name, most_nested, most_parts};
ghost use Rattle.rn_model.specs.Limits.{most_inscriptions, most_initial, greatest_capacity};
ghost use Rattle.rn_model.specs.Limits.{most_vars, most_places, most_transitions, most_nets};
ghost use Rattle.rn_model.specs.Limits.{most_channels, most_nodes, greatest_instance};
ghost use Rattle.rn_model.specs.Limits.{most_workers, most_steps, greatest_step};
ghost use Rattle.rn_model.specs.Limits.{greatest_depth, greatest_sweep};

/// Bytes of a name.
pub const LONGEST_NAME: usize = 64;
/// How deep brackets nest, in a kind, a token, an expression or a guard.
pub const MOST_NESTED: u32 = 64;
/// Parts of a tuple, and arguments of a channel.
pub const MOST_PARTS: usize = 16;
/// Inscriptions of a transition.
pub const MOST_INSCRIPTIONS: usize = 200;
/// Tokens with which a place begins.
pub const MOST_INITIAL: usize = 10_000;
/// The greatest capacity of a place.
pub const GREATEST_CAPACITY: u32 = 1_000_000;
/// Variables of a net.
pub const MOST_VARS: usize = 200;
/// Places of a net.
pub const MOST_PLACES: usize = 1_000;
/// Transitions of a net.
pub const MOST_TRANSITIONS: usize = 1_000;
/// Nets of a system.
pub const MOST_NETS: usize = 1_000;
/// Channels of a system.
pub const MOST_CHANNELS: usize = 1_000;
/// Nodes of a binding.
pub const MOST_NODES: usize = 16_777_216;
/// The greatest number of an instance.
pub const GREATEST_INSTANCE: u32 = 1_000_000;
/// Workers.
pub const MOST_WORKERS: u32 = 64;
/// Firings of a run.
pub const MOST_STEPS: u32 = 200_000;
/// The greatest number of a firing that is tried: the next one at the end of a longest run.
pub const GREATEST_STEP: u64 = 200_001;
/// How deep bindings may be.
pub const GREATEST_DEPTH: u32 = 16;
/// After how many firings of its own a worker drops instances that aren't live.
pub const GREATEST_SWEEP: u32 = 200_000;

/// The constants are the limits that the definitions state.
pub fn limits_are_as_stated()
    ensures name { LONGEST_NAME ≡ longest_name }
    ensures nested { MOST_NESTED ≡ most_nested }
    ensures parts { MOST_PARTS ≡ most_parts }
    ensures inscriptions { MOST_INSCRIPTIONS ≡ most_inscriptions }
    ensures initial { MOST_INITIAL ≡ most_initial }
    ensures capacity { GREATEST_CAPACITY ≡ greatest_capacity }
    ensures vars { MOST_VARS ≡ most_vars }
    ensures places { MOST_PLACES ≡ most_places }
    ensures transitions { MOST_TRANSITIONS ≡ most_transitions }
    ensures nets { MOST_NETS ≡ most_nets }
    ensures channels { MOST_CHANNELS ≡ most_channels }
    ensures nodes { MOST_NODES ≡ most_nodes }
    ensures instance { GREATEST_INSTANCE ≡ greatest_instance }
    ensures workers { MOST_WORKERS ≡ most_workers }
    ensures steps { MOST_STEPS ≡ most_steps }
    ensures step { GREATEST_STEP ≡ greatest_step }
    ensures depth { GREATEST_DEPTH ≡ greatest_depth }
    ensures sweep { GREATEST_SWEEP ≡ greatest_sweep }
{}
