//! The limits of weighted nets that are theirs alone, as constants. Names, places, transitions and
//! initial tokens have the limits of systems of nets (`rn_model::limits`).
ghost use Rattle.std.specs.Prelude.{◌≡◌};
ghost use Rattle.rn_weighted.specs.Limits.{most_arcs, greatest_weight};

/// Arcs of a transition.
pub const MOST_ARCS: usize = 200;
/// The greatest weight of an arc.
pub const GREATEST_WEIGHT: u32 = 1_000;

/// The constants are the limits that the definitions state.
pub fn limits_are_as_stated()
    ensures arcs { MOST_ARCS ≡ most_arcs }
    ensures weight { GREATEST_WEIGHT ≡ greatest_weight }
{}
