//! What a decision is on.
ghost use Rattle.std.specs.Prelude.{◌≡◌};
ghost use Rattle.rn_search.specs.Points.{node_on};

use rn_growing::{Decision, Head};

/// The node that a decision is on.
pub(crate) fn node_on(decision: &Decision) -> &Head
    ensures { result.now ≡ node_on decision.now }
{
    match decision {
        Decision::Entered(head, _) => head,
        Decision::Found(head, _, _) => head,
        Decision::Computed(head, _, _, _) => head,
    }
}
