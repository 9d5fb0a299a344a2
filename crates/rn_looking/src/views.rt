//! What a look is given: a node, or all that is asked of a binding that grows, with the search and
//! the decisions made so far. A look only reads them, so functions hand them on by value
//! (`docs/SEARCH.md`, 'What it does next').
use rn_binding::Application;
use rn_growing::{Growing, Head};
use rn_items::Items;
use rn_model::Transition;
use rn_search::Problem;

/// A node that is looked at: in which search, after which decisions, which of those entered it, and
/// its transition.
#[derive(Clone, Copy)]
pub(crate) struct NodeView<'a> {
    pub(crate) problem: &'a Problem<'a>,
    pub(crate) growing: &'a Growing<'a>,

    /// The decision that entered it, by its index.
    pub(crate) node: usize,
    pub(crate) head: &'a Head,
    pub(crate) transition: &'a Transition,
}

/// All that is asked after some decisions of a search, node by node.
#[derive(Clone, Copy)]
pub(crate) struct BranchView<'a> {
    pub(crate) problem: &'a Problem<'a>,
    pub(crate) growing: &'a Growing<'a>,

    /// The operator applications of the nodes, beside the decisions.
    pub(crate) applications: &'a [Items<Application<'a>>],

    /// With which token choices begin (`among`).
    pub(crate) first: usize,
}
