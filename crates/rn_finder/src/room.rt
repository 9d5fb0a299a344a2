//! The room of searches, from one to the next. A search is lent the vectors of the one before, so
//! that it makes none anew as far as these have room. The count of what searches cost goes on in
//! it, and limits and earnings are differences of that count (`docs/SEARCH.md`, 'Going back').
ghost use Rattle.std.specs.Prelude.{◌≡◌, []};
ghost use Rattle.rn_growing.specs.Grown.{HasFewCreations};

use rn_branch::Branch;
use rn_choices::Choices;
use rn_model::System;
use rn_search::Point;
use std::alloc::Global;
use std::mem;

/// The vectors of a search, for the next one: those of its choices and of its branch. A search that is
/// lent them makes none anew, as far as these have room.
#[derive(Drop)]
pub struct Room {
    pub(crate) choices: Choices<Point>,
    pub(crate) branch: rn_branch::BranchRoom,

    /// How many starts were passed by.
    pub(crate) passed: u64,
}

impl Room {
    /// It takes no memory.
    pub fn new(alloc: Global) -> Room {
        Room {
            choices: Choices::new(alloc),
            branch: rn_branch::BranchRoom::new(alloc),
            passed: 0,
        }
    }

    /// A start is passed by.
    pub(crate) fn pass(&mut self) {
        self.choices.spend(1);
        self.passed = self.passed.wrapping_add(1);
    }

    /// So many starts are passed by.
    pub(crate) fn pass_all(&mut self, count: u32) {
        self.choices.spend(count as u64);
        self.passed = self.passed.wrapping_add(count as u64);
    }

    /// A branch without decisions, which has the room until it is put back.
    pub(crate) fn open<'a>(&mut self, alloc: Global, system: &'a System, first: usize) -> Branch<'a>
        requires { HasFewCreations system.now }
        ensures { result ≡ record { system = system.now; decisions = [] } }
    {
        let room = mem::replace(&mut self.branch, rn_branch::BranchRoom::new(alloc));
        Branch::open_in(alloc, room, system, first)
    }

    /// The room of a branch is put back.
    pub(crate) fn close(&mut self, branch: Branch<'_>) {
        self.branch = branch.into_room();
    }
}
