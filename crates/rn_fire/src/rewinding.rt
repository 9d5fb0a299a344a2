//! Going back to an earlier state.
ghost use Rattle.std.specs.Prelude.{◌≡◌, ◌≤◌, None, length, take};
ghost use Rattle.rn_model.specs.Liveness.{Stands};
ghost use Rattle.rn_model.specs.Runs.{end_of};
ghost use Rattle.rn_table.specs.Tables.{IsTableOf};

use crate::state::SimState;
use rn_table::Table;

impl SimState {
    /// The log is that of its first `count` firings again, without an end, and the table is the one that
    /// is given, which stands for the marking after them. It takes no memory.
    pub fn rewind(&mut self, count: u64, table: Table)
        requires firings { count ≤ length self.old.fired }
        requires stands { Stands self.old.setup.system table.marking
            (end_of self.old.setup.system (take count self.old.fired)) }
        requires of_system { IsTableOf self.old.setup.system table }
        ensures { self.new ≡ record {
          setup = self.old.setup;
          fired = take count self.old.fired;
          ended = None;
          table = table;
        } }
    {
        // Instances get the numbers from 1 one after another, so this tells how many there were.
        let made = table.next() as usize - 1;
        self.nets.truncate(made);
        self.entries.truncate(count as usize);
        self.table = table;
    }
}
