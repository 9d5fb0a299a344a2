//! An alternative that is tried, as functions hand it on: of what it is one, and which.
use rn_search::Point;

/// An alternative of a point.
#[derive(Clone, Copy)]
pub(crate) struct Tried {
    pub(crate) point: Point,
    pub(crate) a: usize,

    /// Whether the alternative that was tried last was of the same point.
    pub(crate) again: bool,
}

/// A token of the place of a node's arc.
#[derive(Clone, Copy)]
pub(crate) struct TriedToken {
    pub(crate) node: usize,

    /// The arc, by its index.
    pub(crate) k: usize,

    /// The token of the first alternative, by its index in the place.
    pub(crate) from: usize,
    pub(crate) a: usize,

    /// Whether the alternative that was tried last was a token of the same choice.
    pub(crate) again: bool,
}

/// A value of an operator application of a node.
#[derive(Clone, Copy)]
pub(crate) struct TriedResult {
    pub(crate) node: usize,

    /// The operator application, by its index among those of the node's transition.
    pub(crate) k: usize,

    /// The value.
    pub(crate) n: i64,
    pub(crate) a: usize,
}
