//! Firing the binding with a number.
ghost use Rattle.std.specs.Prelude.{◌≡◌, ◌<◌, IfOk, IfSome, IfNone, MatchOption, None, Some, ⊤, length, option_map};
ghost use Rattle.rn_served.specs.Listed.{IsNumbered, NoneIsNumbered};
ghost use Rattle.rn_fire.specs.States.{end_marking};
ghost use Rattle.rn_fire.specs.Commits.{IsEnabledNow};
ghost use Rattle.rn_session.specs.link.Keeping.{CommitsTo, HasRefusal, HaveChangedSince, IsFirst, Tells, WasLookedAt};
ghost use Rattle.rn_session.specs.Sessions.{FiresBy};

use crate::session::{Looked, Session};
use rn_binding::Candidate;
use rn_fire::{Commit, SimState};
use rn_items::NoMemory;
use rn_served::FireAnswer;
use std::alloc::Global;

impl Session {
    /// Fires the binding with this number in the list, as worker 1. Its number in the list is from 1.
    ///
    /// For the first binding the list isn't made.
    pub fn fire(&mut self, alloc: Global, k: u64) -> Result<FireAnswer, NoMemory>
        ensures { FiresBy self.old k result self.new }
    {
        if let Some(number) = self.refusal() {
            return Ok(FireAnswer::Refused(number));
        }
        match self.numbered(alloc, k)? {
            Some(candidate) => self.commit(alloc, &candidate),
            None => Ok(FireAnswer::Refused(1)),
        }
    }

    /// Why no binding may fire, whatever its number: the run has ended (3), or the step limit is reached
    /// (2).
    fn refusal(&self) -> Option<u32>
        ensures { HasRefusal self.now result }
    {
        if self.state.has_ended() {
            return Some(3);
        }
        if self.state.length() == self.options.steps as u64 {
            return Some(2);
        }
        None
    }

    /// The binding with this number in the list.
    fn numbered(&mut self, alloc: Global, k: u64) -> Result<Option<Candidate>, NoMemory>
        requires going { self.old.ended ≡ None }
        ensures same { self.new ≡ self.old }
        ensures some { IfOk result (λ o. IfSome o (λ b. IsNumbered self.old.setup.system
            (end_marking self.old) self.old.setup.options.depth k b)) }
        ensures none { IfOk result (λ o. IfNone o (NoneIsNumbered self.old.setup.system
            (end_marking self.old) self.old.setup.options.depth k)) }
    {
        if k == 1 {
            return self.first(alloc);
        }
        let mut found = self.list(alloc)?;
        if k == 0 || (found.len() as u64) < k {
            return Ok(None);
        }
        Ok(Some(found.swap_remove(k as usize - 1)))
    }

    /// The first binding of the list. What was found for the firing before may tell it.
    fn first(&mut self, alloc: Global) -> Result<Option<Candidate>, NoMemory>
        requires going { self.old.ended ≡ None }
        ensures same { self.new ≡ self.old }
        ensures some { IfOk result (λ o. IfSome o (λ b. IsNumbered self.old.setup.system
            (end_marking self.old) self.old.setup.options.depth 1 b)) }
        ensures none { IfOk result (λ o. IfNone o (NoneIsNumbered self.old.setup.system
            (end_marking self.old) self.old.setup.options.depth 1)) }
    {
        // For its clause: it is a state of a run (`IsState`), so its tokens fit their places.
        let seen = self.state.length();
        let system = self.state.system();
        let table = self.state.table();
        let next = table.next();
        let since = changed_since_look(alloc, &self.state, self.looked)?;
        self.looked = Some(Looked { seen, next });
        let changed = slice_of(&since);
        let depth = self.options.depth;
        self.firsts
            .look(alloc, system, &self.uplinks, table, depth, changed)
    }

    /// Does the firing of a binding that is enabled, or ends the run with its fault. The table of before
    /// is kept.
    fn commit(&mut self, alloc: Global, candidate: &Candidate) -> Result<FireAnswer, NoMemory>
        requires going { self.old.ended ≡ None }
        requires below { length self.old.fired < self.old.setup.options.steps }
        requires enabled { IsEnabledNow self.old candidate.now }
        ensures { CommitsTo self.old candidate.now result self.new }
    {
        let seen = self.state.length();
        let before = self.state.table().snapshot()?;
        self.kept.reserve(1)?;
        let committed = self.state.commit(alloc, 1, candidate, seen);
        let answer = told(committed)?;
        self.kept.push_reserved(before);
        // For its clause: what is left is a state of a run (`IsState`).
        let _length = self.state.length();
        Ok(answer)
    }
}

// The instances that may have changed since a look, where there was one.
fn changed_since_look(
    alloc: Global,
    state: &SimState,
    looked: Option<Looked>,
) -> Result<Option<Vec<u32>>, NoMemory>
    requires { WasLookedAt state.now looked }
    ensures { IfOk result (λ changed. HaveChangedSince state.now looked
        (option_map (λ c. c.items) changed)) }
{
    match looked {
        Some(look) => Ok(Some(state.changed_since(alloc, look.seen, look.next)?)),
        None => Ok(None),
    }
}

// These numbers, where there are some.
fn slice_of(numbers: &Option<Vec<u32>>) -> Option<&[u32]>
    ensures { MatchOption result ⊤ (λ c. option_map (λ v. v.items) numbers.now ≡ Some c.now) }
{
    match numbers {
        Some(list) => Some(list.as_slice()),
        None => None,
    }
}

// What a commit comes to that nobody came before.
fn told(committed: Commit) -> Result<FireAnswer, NoMemory>
    requires { IsFirst committed }
    ensures { Tells committed result }
{
    match committed {
        Commit::Fired { step } => Ok(FireAnswer::Fired { step }),
        Commit::Faulted => Ok(FireAnswer::Faulted),
        Commit::NoMemory(no_memory) => Err(no_memory),
        Commit::Conflict { .. } | Commit::Ended => unreachable!(),
    }
}
