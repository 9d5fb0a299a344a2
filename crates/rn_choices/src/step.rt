//! What one step of a search came to.

/// What one step of a search came to.
#[derive(Debug, Drop)]
pub enum Step<S> {
    /// A solution.
    Found(S),
    /// Other decisions.
    Moved,
    /// The end: nothing is left to be tried.
    Over,
}
