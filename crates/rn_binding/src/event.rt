//! What happens to a binding while it grows, and what may follow at once.

/// An item is in, given by its index, or a variable of a node is forced, given by the node's index
/// and its number.
#[derive(Clone, Copy, Debug, PartialEq, Eq, PartialOrd, Ord)]
pub(crate) enum Event {
    In(usize),
    Forced(usize, u32),
}

/// Once the first event happened, the second may.
#[derive(Clone, Copy, Debug, PartialEq, Eq, PartialOrd, Ord)]
pub(crate) struct Edge {
    pub(crate) from: Event,
    pub(crate) to: Event,
}
