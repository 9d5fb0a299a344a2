//! What is known before the search.
use rn_fire::SimState;

/// A replay before the search.
#[derive(Drop)]
pub enum BegunReplay {
    /// All that is told is true.
    Done(SimState),

    /// What is told ends as dead, which is true exactly where no binding is enabled in this state.
    Dead(SimState),
}
