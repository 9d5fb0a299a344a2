//! The instances that were found so far.
ghost use Rattle.std.specs.Prelude.{◌≡◌, ℕ, [], false, length, nat_eq, vec_capacity};
ghost use Rattle.rn_live.specs.Rooms.{is_marked};
ghost use Rattle.rn_live.specs.link.Marks.{FindsIn, HasRoom};

use rn_table::Table;
use std::alloc::Global;

/// A mark for each number below an end, and the marked numbers that weren't gone through yet.
#[derive(Drop)]
pub(crate) struct Found {
    pub(crate) marks: Vec<bool>,
    pub(crate) waiting: Vec<u32>,
}

impl Found {
    /// No number is marked, and there is no mark.
    pub(crate) fn none(alloc: Global) -> Found
        ensures marks { result.marks.items ≡ [] }
        ensures waiting { result.waiting.items ≡ [] }
    {
        Found {
            marks: Vec::new(alloc),
            waiting: Vec::new(alloc),
        }
    }

    /// One instance more, where it is kept and isn't marked yet.
    pub(crate) fn add(&mut self, table: &Table, number: u32)
        requires { HasRoom self.old }
        ensures { FindsIn table.now.marking (nat_eq number) self.old self.new }
    {
        let at = number as usize;
        if at >= self.marks.len() {
            return;
        }
        if self.marks[at] || table.net_of(number).is_none() {
            return;
        }
        self.waiting.push_reserved(number);
        self.marks[at] = true;
    }
}

/// No number is marked any more.
pub(crate) fn unmark(marks: &mut Vec<bool>)
    ensures size { length marks.new.items ≡ length marks.old.items }
    ensures none { (n : ℕ) → is_marked marks.new.items n ≡ false }
{
    for at in 0..marks.len() {
        marks[at] = false;
    }
}
