//! The vectors of branches, from one to the next. A worker searches again and again, and each
//! branch begins in the vectors of the one before. They are left empty, so nothing that was decided
//! or looked at there goes into the next search (`docs/SEARCH.md`, 'Going back').
use crate::entered::EnteredPaths;
use rn_looking::{Tested, TextChoice};
use std::alloc::Global;
use std::marker::Model;

/// The vectors of a branch that was searched, empty, for the next one.
#[derive(Drop)]
pub struct BranchRoom {
    pub(crate) growing: rn_growing::GrowingRoom,
    pub(crate) before: Vec<usize>,
    pub(crate) tested_before: Vec<Tested>,
    pub(crate) choices: Vec<(usize, TextChoice)>,
    pub(crate) entries: EnteredPaths,
}

impl Model for BranchRoom {
    ghost use Rattle.std.specs.Prelude.{◌≡◌, [], ⊤};

    ghost Value = { ⊤ };

    ghost view = { λ _. tt };

    ghost invariant = { λ r. (r.before.items ≡ []) };
}

impl BranchRoom {
    /// It takes no memory.
    pub fn new(alloc: Global) -> BranchRoom {
        BranchRoom {
            growing: rn_growing::GrowingRoom::new(alloc),
            before: Vec::new(alloc),
            tested_before: Vec::new(alloc),
            choices: Vec::new(alloc),
            entries: EnteredPaths::new(alloc),
        }
    }
}
