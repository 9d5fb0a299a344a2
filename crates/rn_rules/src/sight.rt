//! What is kept of an expression that was seen, and where it stood.
ghost use Rattle.std.specs.Prelude.{◌≡◌, true};

use crate::scope::KindedNames;
use rn_declared::{NameTable, Numbered, Numbers};
use rn_notation::Spot;

/// An expression that was seen: its spot, whether nothing is broken in it, and which kinds it has.
#[derive(Drop)]
pub(crate) struct SeenExpr<N: Numbers> {
    pub(crate) spot: Spot,
    pub(crate) whole: bool,
    pub(crate) pattern: Numbered<N>,
}

/// Where an expression stands: the variables of its net, the numbers of the actions that set some
/// of them, how many of these come before, and whether `step()` may stand there.
#[derive(Drop)]
pub(crate) struct Here<'a, N: Numbers> {
    pub(crate) vars: &'a KindedNames<N>,
    pub(crate) setters: &'a NameTable,
    pub(crate) past: usize,
    pub(crate) step_may: bool,
}

impl<N: Numbers> SeenExpr<N> {
    /// An expression in which nothing is broken.
    pub(crate) fn whole(spot: Spot, pattern: Numbered<N>) -> SeenExpr<N>
        ensures { result ≡ record { spot = spot; whole = true; pattern = pattern } }
    {
        SeenExpr {
            spot,
            whole: true,
            pattern,
        }
    }
}
