//! Committing a candidate.
ghost use Rattle.std.specs.Prelude.{◌≡◌, ◌<◌, ◌≤◌, ◌↔◌, ◌+◌, suc, None, IfOk, OnOk, OnErr, IsTrue, length};
ghost use Rattle.rn_model.specs.Limits.{greatest_instance, most_workers};
ghost use Rattle.rn_binding.specs.Soundness.{IsSound};
ghost use Rattle.rn_fire.specs.Commits.{Commits, FiresOrFaults, HasFired, IsEnabledNow, WasEnabled};
ghost use Rattle.rn_fire.specs.Ends.{MayGoOn};
ghost use Rattle.rn_fire.specs.link.Outcomes.{FiresBy};

use crate::nets::add_nets;
use crate::outcome::{Outcome, outcome_of};
use crate::state::SimState;
use rn_arcs::fits;
use rn_binding::Candidate;
use rn_items::NoMemory;
use rn_model::{Binding, Entry, copy_binding};
use rn_table::Change;
use rn_value::Vals;
use std::alloc::Global;

/// What a worker that commits a candidate is told.
#[derive(Clone, Copy, Debug, PartialEq, Eq)]
pub enum Commit {
    /// The firing was done, as the one with this number.
    Fired { step: u64 },

    /// It isn't enabled any more. The worker had seen so many entries, and there are now more.
    Conflict { seen: u64, now: u64 },

    /// Its firing is undefined, and the log ends so.
    Faulted,

    /// The log had ended.
    Ended,

    /// Memory is out. All is as before.
    NoMemory(NoMemory),
}

impl SimState {
    /// Commits a candidate that was enabled after the first `seen` entries: does its firing, if it
    /// still is.
    ///
    /// Where nothing was added since, the marking isn't looked at. All memory is taken before anything
    /// changes.
    pub fn commit(&mut self, alloc: Global, worker: u32, candidate: &Candidate, seen: u64) -> Commit
        requires worker { (1 ≤ worker) × (worker ≤ most_workers) }
        requires sound { IsSound self.old.setup.system self.old.setup.options.depth candidate.now }
        requires seen { WasEnabled self.old candidate.now seen }
        requires below { MayGoOn self.old }
        ensures { Commits self.old worker candidate.now seen result self.new }
    {
        if self.has_ended() {
            return Commit::Ended;
        }
        match self.is_still_enabled(alloc, candidate.binding(), seen) {
            Ok(true) => {}
            Ok(false) => {
                return Commit::Conflict {
                    seen,
                    now: self.length(),
                };
            }
            Err(no_memory) => return Commit::NoMemory(no_memory),
        }
        match self.fire(alloc, worker, candidate.binding()) {
            Ok(Some(step)) => Commit::Fired { step },
            Ok(None) => Commit::Faulted,
            Err(no_memory) => Commit::NoMemory(no_memory),
        }
    }

    /// Whether a binding that was enabled after the first `seen` entries still is.
    fn is_still_enabled(
        &self,
        alloc: Global,
        binding: &Binding,
        seen: u64,
    ) -> Result<bool, NoMemory>
        requires going { self.now.ended ≡ None }
        requires sound { IsSound self.now.setup.system self.now.setup.options.depth binding.now }
        requires seen { WasEnabled self.now binding.now seen }
        ensures exact { IfOk result (λ yes. IsTrue yes ↔ IsEnabledNow self.now binding.now) }
        ensures later { IfOk result (λ yes. ¬ IsTrue yes → seen < length self.now.fired) }
    {
        if self.length() <= seen {
            return Ok(true);
        }
        fits(alloc, self.system(), self.table(), binding)
    }

    /// Does the firing of a binding that is enabled, or ends the log with its fault.
    fn fire(
        &mut self,
        alloc: Global,
        worker: u32,
        binding: &Binding,
    ) -> Result<Option<u64>, NoMemory>
        requires going { self.old.ended ≡ None }
        requires below { length self.old.fired < self.old.setup.options.steps }
        requires worker { (1 ≤ worker) × (worker ≤ most_workers) }
        requires enabled { IsEnabledNow self.old binding.now }
        ensures { FiresOrFaults self.old worker binding.now result self.new }
    {
        let step = self.length() + 1;
        let copied = copy_binding(alloc, binding)?;
        match outcome_of(alloc, self.system(), binding, self.table().next(), step)? {
            Outcome::Undefined(cause) => {
                self.end_by_fault(alloc, cause, copied)?;
                Ok(None)
            }
            Outcome::Defined(outs, change) => {
                self.add(worker, copied, outs, &change)?;
                Ok(Some(step))
            }
        }
    }

    /// Adds a firing of an enabled binding, with what it prints and changes.
    fn add(
        &mut self,
        worker: u32,
        binding: Binding,
        outs: Vals,
        change: &Change,
    ) -> Result<(), NoMemory>
        requires going { self.old.ended ≡ None }
        requires below { length self.old.fired < self.old.setup.options.steps }
        requires worker { (1 ≤ worker) × (worker ≤ most_workers) }
        requires enabled { IsEnabledNow self.old binding }
        requires fires { FiresBy self.old.setup.system binding self.old.table.marking.next
            (suc (length self.old.fired)) outs change.now }
        ensures ok { OnOk result (HasFired self.old
            (record { worker = worker; binding = binding; outs = outs }) self.new) }
        ensures err { OnErr result (self.new ≡ self.old) }
    {
        let next = next_after(self.table.next(), change.made.len());
        self.nets.reserve(change.made.len())?;
        self.live.reserve(next)?;
        self.table.apply(&self.system, change)?;
        add_nets(&mut self.nets, change.made.as_slice());
        self.entries.push_reserved(Entry::Fire {
            worker,
            binding,
            outs,
        });
        Ok(())
    }
}

// The next number after so many new instances.
fn next_after(next: u32, made: usize) -> u32
    requires { next + made ≤ greatest_instance + 1 }
    ensures { result ≡ next + made }
{
    next + made as u32
}
