//! Taking back the last entries.
ghost use Rattle.rn_session.specs.Sessions.{UndoesBy};

use crate::session::Session;
use rn_items::NoMemory;

impl Session {
    /// Takes back the last `k` entries; an end by a firing that is undefined is one. Returns false where
    /// there aren't so many, or `k` is 0. It takes no memory.
    pub fn undo(&mut self, k: u64) -> Result<bool, NoMemory>
        ensures { UndoesBy self.old k result self.new }
    {
        let length = self.state.length();
        if k == 0 || length < k {
            return Ok(false);
        }
        let count = length - k;
        self.kept.truncate(count as usize + 1);
        let Some(table) = self.kept.pop() else {
            unreachable!();
        };
        self.state.rewind(count, table);
        self.firsts.forget();
        self.looked = None;
        // For its clause: what is left is a state of a run (`IsState`).
        let _length = self.state.length();
        Ok(true)
    }
}
