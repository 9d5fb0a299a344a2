//! The unknowns of nodes, and which ids of a store stand for them. An operator application is an
//! unknown as a variable is: unification doesn't compute it, and its value comes in by a decision
//! of its own. A frame has the sizes before a decision, to go back to.
ghost use Rattle.std.specs.Prelude.{◌≡◌};
ghost use Rattle.rn_growing.specs.link.Layouts.{same_site, same_unknown};

use crate::decision::{Site, Way};
use rn_shared::Shared;
use rn_term::Mark;
use rn_value::Path;

/// An unknown of a node: a variable, or an outermost operator application by its site and the way
/// to it.
#[derive(Debug, Drop)]
pub(crate) enum Unknown {
    Var(u32),
    Hole(Site, Way),
}

/// The id that stands for an unknown of the node on a path.
#[derive(Debug, Drop)]
pub(crate) struct Slot {
    pub(crate) path: Shared<Path>,
    pub(crate) unknown: Unknown,
    pub(crate) id: usize,
}

/// The sizes before a decision.
#[derive(Clone, Copy, Debug)]
pub(crate) struct Frame {
    pub(crate) mark: Mark,
    pub(crate) slots: usize,
}

/// Whether two sites are the same.
pub(crate) fn are_same_site(a: Site, b: Site) -> bool
    ensures { result ≡ same_site a b }
{
    match (a, b) {
        (Site::Left(k), Site::Left(j)) => k == j,
        (Site::Right(k), Site::Right(j)) => k == j,
        (Site::UplinkArg(k), Site::UplinkArg(j)) => k == j,
        (Site::Target(k), Site::Target(j)) => k == j,
        (Site::DownlinkArg(i, k), Site::DownlinkArg(h, j)) => i == h && k == j,
        (Site::Inscription(k), Site::Inscription(j)) => k == j,
        _ => false,
    }
}

/// Whether two unknowns of a node are the same.
pub(crate) fn are_same(a: &Unknown, b: &Unknown) -> bool
    ensures { result ≡ same_unknown a.now b.now }
{
    match (a, b) {
        (Unknown::Var(x), Unknown::Var(y)) => x == y,
        (Unknown::Hole(site, way), Unknown::Hole(other, along)) => {
            are_same_site(*site, *other) && way.as_slice() == along.as_slice()
        }
        _ => false,
    }
}
