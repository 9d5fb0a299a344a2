//! Committing the first of the bindings that were enabled.
ghost use Rattle.std.specs.Prelude.{◌≡◌, ◌≤◌};
ghost use Rattle.rn_model.specs.Limits.{most_workers};
ghost use Rattle.rn_binding.specs.Soundness.{IsSound};
ghost use Rattle.rn_fire.specs.Ends.{MayGoOn};
ghost use Rattle.rn_least_state.specs.CommitsAt.{CommitsAt, WasLeast};
ghost use Rattle.rn_least_state.specs.link.CommitsAt.{answer_at};

use crate::state::LeastState;
use rn_binding::Candidate;
use rn_fire::Commit;
use rn_items::NoMemory;
use std::alloc::Global;

/// What a worker that commits the first of the bindings that were enabled is told.
#[derive(Clone, Copy, Debug, PartialEq, Eq)]
pub enum CommitAt {
    /// The firing was done, as the one with this number.
    Fired { step: u64 },

    /// Others fired since, so it may not be the first any more. The worker had seen so many entries, and
    /// there are now more.
    Late { seen: u64, now: u64 },

    /// Its firing is undefined, and the log ends so.
    Faulted,

    /// The log had ended.
    Ended,

    /// Memory is out. All is as before.
    NoMemory(NoMemory),
}

// What the commit of a state returns.
fn answer_at(answer: Commit) -> CommitAt
    ensures { result ≡ answer_at answer }
{
    match answer {
        Commit::Fired { step } => CommitAt::Fired { step },
        Commit::Conflict { seen, now } => CommitAt::Late { seen, now },
        Commit::Faulted => CommitAt::Faulted,
        Commit::Ended => CommitAt::Ended,
        Commit::NoMemory(no_memory) => CommitAt::NoMemory(no_memory),
    }
}

impl LeastState {
    /// Commits the candidate that was the first of those enabled after the first `seen` entries: does its
    /// firing, if there are no others.
    pub fn commit_at(
        &mut self,
        alloc: Global,
        worker: u32,
        candidate: &Candidate,
        seen: u64,
    ) -> CommitAt
        requires worker { (1 ≤ worker) × (worker ≤ most_workers) }
        requires sound { IsSound self.old.setup.system self.old.setup.options.depth candidate.now }
        requires seen { WasLeast self.old candidate.now seen }
        requires below { MayGoOn self.old }
        ensures { CommitsAt self.old worker candidate.now seen result self.new }
    {
        if self.state.has_ended() {
            return CommitAt::Ended;
        }
        let now = self.state.length();
        if seen < now {
            return CommitAt::Late { seen, now };
        }
        let answer = self.state.commit(alloc, worker, candidate, seen);
        // For its clause: what is left is a state of a run (`IsState`).
        let _length = self.state.length();
        answer_at(answer)
    }
}
