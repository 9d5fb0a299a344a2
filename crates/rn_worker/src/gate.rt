//! What workers call between a search and its commit.

/// What the workers share. Each worker calls it once for each snapshot, with no turn held, after
/// its search and before the turn of its commit.
pub trait Gate {
    /// The worker has looked after so many entries.
    fn between(&self, worker: u32, seen: u64);
}

/// A gate that does nothing.
#[derive(Clone, Copy, Debug, PartialEq, Eq)]
pub struct NoGate;

impl Gate for NoGate {
    fn between(&self, _worker: u32, _seen: u64) {}
}
