//! The items of a binding, as what the code goes through.
use crate::applications::Application;
use crate::headed::Headed;
use rn_model::{NetArc, Node};

/// An item of a binding: the entry of a node, what an arc of it finds, or an outermost operator
/// application of it.
#[derive(Drop)]
pub(crate) enum Part<'a> {
    Entry(&'a Headed<'a>),
    Found(&'a Headed<'a>, usize, &'a NetArc),
    Computed(&'a Headed<'a>, Application<'a>),
}

impl<'a> Part<'a> {
    /// The node of the item.
    pub(crate) fn node(&self) -> &Node {
        match self {
            Part::Entry(node) => node.node(),
            Part::Found(node, _, _) => node.node(),
            Part::Computed(node, _) => node.node(),
        }
    }
}
