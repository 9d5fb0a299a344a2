//! What a row says.
ghost use Rattle.std.specs.Prelude.{◌≤◌};

use std::alloc::Global;

/// The call that a row asks for: its words and input, which reads and writes fail, and how many
/// bytes a write takes at most.
#[derive(Drop)]
pub(crate) struct Call {
    pub(crate) words: Vec<String>,
    pub(crate) input: Vec<u8>,
    pub(crate) reads_fail: Vec<u64>,
    pub(crate) out_fails: Vec<u64>,
    pub(crate) err_fails: Vec<u64>,
    pub(crate) most: usize,
    ghost some: { 1 ≤ most },
}

/// What must come of it.
#[derive(Drop)]
pub(crate) struct Wanted {
    pub(crate) status: u8,
    pub(crate) out: Vec<u8>,
    pub(crate) err: Vec<u8>,
}

/// A row. One that must differ says on purpose what doesn't come.
#[derive(Drop)]
pub(crate) struct Row {
    pub(crate) name: Vec<u8>,
    pub(crate) must_differ: bool,
    pub(crate) call: Call,
    pub(crate) wanted: Wanted,
}

impl Call {
    /// A call without words and input, in which nothing fails.
    pub(crate) fn plain(alloc: Global) -> Call {
        Call {
            words: Vec::new(alloc),
            input: Vec::new(alloc),
            reads_fail: Vec::new(alloc),
            out_fails: Vec::new(alloc),
            err_fails: Vec::new(alloc),
            most: usize::MAX,
        }
    }
}

impl Wanted {
    /// Status 0, and nothing on the outputs.
    pub(crate) fn nothing(alloc: Global) -> Wanted {
        Wanted {
            status: 0,
            out: Vec::new(alloc),
            err: Vec::new(alloc),
        }
    }
}
