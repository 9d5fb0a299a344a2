//! How many bindings the lists have, and the first of them.
ghost use Rattle.std.specs.Prelude.{◌↔◌, IfSome, IsNone};
ghost use Rattle.std.specs.Option.{option_copied};
ghost use Rattle.rn_model.specs.declared.system.System.{System as Whole};
ghost use Rattle.rn_model.specs.Enabling.{DeadAt};
ghost use Rattle.rn_least.specs.LeastRuns.{IsLeast};
ghost use Rattle.rn_incr.specs.link.Kept.{IsSum};
ghost use Rattle.rn_incr.specs.Lists.{AreListsOf, IsCount};

use crate::lists::{Cands, Lists};
use rn_binding::Candidate;

/// How many bindings lists have.
pub(crate) fn count_of(lists: &[Cands]) -> u128
    ensures { IsSum lists.now result }
{
    let mut count = 0;
    for list in lists {
        count += list.len() as u128;
    }
    count
}

impl Lists {
    /// The number of all bindings. It takes no memory.
    pub fn count(&self) -> u128
        ensures { (system : Whole) → AreListsOf system self.now →
            IsCount system self.now.marking self.now.depth result }
    {
        self.kept.total()
    }

    /// The first of all bindings by `compare_bindings`, or `None` exactly where there is none. It
    /// takes no memory.
    pub fn first(&self) -> Option<&Candidate>
        ensures least { (system : Whole) → AreListsOf system self.now →
            IfSome (option_copied result) (IsLeast system self.now.marking self.now.depth) }
        ensures none { (system : Whole) → AreListsOf system self.now →
            IsNone (option_copied result) ↔ DeadAt system self.now.marking self.now.depth }
    {
        self.kept.first()
    }
}
