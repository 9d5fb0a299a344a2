//! The entries that have nodes.

/// The entry in which nodes stand: a firing with its number and its worker, or one that is
/// undefined.
#[derive(Clone, Copy, Debug, PartialEq, Eq)]
pub(crate) enum Role {
    Firing { step: u64, worker: u32 },
    Fault,
}
