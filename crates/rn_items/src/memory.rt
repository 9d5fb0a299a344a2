//! The answer of a call that ran out of memory.

use std::alloc::{AllocError, AllocFailed};

/// The allocator had no memory. It is the one answer that comes without a cause: no contract says
/// when it comes, and each says what state it leaves. One is made only of what the allocator
/// reports, by the two conversions below, so whoever has one was refused memory.
#[derive(Clone, Copy, Debug, PartialEq, Eq)]
pub struct NoMemory {
    refused: (),
}

impl From<AllocError> for NoMemory {
    fn from(_error: AllocError) -> NoMemory {
        NoMemory { refused: () }
    }
}

impl<T: Drop> From<AllocFailed<T>> for NoMemory {
    fn from(_failed: AllocFailed<T>) -> NoMemory {
        NoMemory { refused: () }
    }
}
