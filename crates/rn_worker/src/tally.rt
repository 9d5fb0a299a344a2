//! What each worker did.
ghost use Rattle.std.specs.Prelude.{◌≡◌, ◌<◌, ◌+◌, ◌^◌, MatchBool, min};
ghost use Rattle.rn_worker.specs.Pacing.{last_count};

use rn_items::Items;

/// How many firings a worker authored, and how many instances it dropped during the run.
#[derive(Drop)]
pub struct Tally {
    pub worker: u32,
    pub fired: u64,
    pub swept: u64,
}

/// Those of all workers, in the order of their numbers.
pub type Tallies = Items<Tally>;

/// What a worker did in a turn: whether it fired, and how many instances it dropped.
#[derive(Clone, Copy)]
pub struct Done {
    pub fired: bool,
    pub swept: u64,
}

impl Tally {
    /// Counts what was done in a turn.
    pub fn count(&mut self, done: Done)
        requires { self.old.fired + 1 < 2 ^ 64 }
        ensures worker { self.new.worker ≡ self.old.worker }
        ensures fired { MatchBool done.fired (self.new.fired ≡ self.old.fired + 1)
            (self.new.fired ≡ self.old.fired) }
        ensures swept { self.old.swept ≡ 0 → done.swept ≡ 0 → self.new.swept ≡ 0 }
        ensures added { self.new.swept ≡ min (self.old.swept + done.swept) last_count }
    {
        if done.fired {
            self.fired += 1;
        }
        self.swept = self.swept.saturating_add(done.swept);
    }
}
