//! How something that grows goes on.

/// How a growing thing goes on. A site is where a decision is to be made; its alternatives are
/// numbers from 0.
#[derive(Clone, Copy, Debug, PartialEq, Eq)]
pub enum Next<S> {
    /// No decision is left to be made.
    Done,
    /// No solution begins with the decisions.
    Stuck,
    /// Each solution that begins with the decisions goes on with the first alternative of this
    /// site.
    Forced(S),
    /// Each solution that begins with the decisions goes on with one of so many alternatives of
    /// this site. They are tried round, from the second number on, or from 0 where it is too large.
    Choose(S, usize, usize),
}
