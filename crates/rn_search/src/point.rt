//! Where a search makes its decisions. A node is given by the index of a decision on it, so a point
//! is a few numbers, and stays the same point as further decisions come in. So a choice is kept as
//! its point and how far it has gone, without its alternatives (`docs/SEARCH.md`, 'Going back').

/// An instance on which a called transition occurs.
#[derive(Clone, Copy, Debug, PartialEq, Eq)]
pub enum Called {
    /// The instance of this number, which the marking has.
    Kept(u32),

    /// The instance that a node's creation makes, by the creation's index in its transition.
    Made(usize, u8),
}

/// A point at which a decision is to be made. Its alternatives are numbers from 0. All indexes are
/// those of the transition's text, from 0.
#[derive(Clone, Copy, Debug, PartialEq, Eq)]
pub enum Point {
    /// The entry of the start: one alternative.
    Start,

    /// What an arc of a node takes, tests or reserves: the tokens of its place, in ascending
    /// order,
    /// from the one of this number on. Of tokens that are equal only the first is a decision.
    Token(usize, usize, usize),

    /// The list that a clear arc of a node finds: one alternative.
    List(usize, usize),

    /// The value of an operator application of a node, by its index among those of its transition,
    /// site by site: one alternative.
    Result(usize, usize, i64),

    /// The transition that answers a downlink of a node, of those of the instance's net with an
    /// uplink of the channel, ascending.
    Call(usize, usize, Called),
}
