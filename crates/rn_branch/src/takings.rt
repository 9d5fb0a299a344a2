//! What decisions take, found by instance, place and token. Beside each decision stands how often
//! those up to it take that token, so the last that takes it gives the number, and not all are gone
//! through. What is kept is cut off with the decisions that are taken back (`docs/SEARCH.md`, 'A
//! binding grows by decisions').
ghost use Rattle.std.specs.Prelude.{◌≡◌, ◌<◌, ◌≤◌, ◌+◌, ◌++◌, ◌∷◌, [], IfSome, OnErr, OnOk};
ghost use Rattle.std.specs.Prelude.{length, take};
ghost use Rattle.rn_model.specs.Lists.{count_of};
ghost use Rattle.rn_search.specs.Taking.{taken_so_far};
ghost use Rattle.rn_branch.specs.Takings.{AreTakings};

use crate::taking::{Taking, takes_it, taking_of};
use crate::token_key::key_of;
use rn_chains::Chains;
use rn_growing::Decision;
use rn_model::System;
use rn_value::NoMemory;
use std::alloc::Global;

/// What the first decisions take.
#[derive(Drop)]
pub(crate) struct TakingCounts {
    /// The key of what each takes.
    keys: Chains,

    /// How often those up to it take that, or 0 where it takes nothing.
    counts: Vec<usize>,
}

impl TakingCounts {
    /// Of no decisions. It takes no memory.
    pub(crate) fn new(alloc: Global) -> TakingCounts
        ensures { length result.counts.items ≡ 0 }
    {
        TakingCounts {
            keys: Chains::new(alloc),
            counts: Vec::new(alloc),
        }
    }

    // How often the decisions up to one take a token, where that one takes it.
    fn times_up_to(
        &self,
        system: &System,
        decisions: &[Decision],
        taking: &Taking<'_>,
        i: usize,
    ) -> Option<usize>
        requires { AreTakings system.now decisions.now self.now }
        ensures { IfSome result (λ times. times ≤ count_of taking.now.token.now
            (taken_so_far system.now taking.now.inst.now taking.now.place
            (take (length self.now.counts.items) decisions.now))) }
    {
        let Some(times) = self.counts.get(i) else {
            return None;
        };
        let Some(decision) = decisions.get(i) else {
            return None;
        };
        if takes_it(system, decision, taking) {
            return Some(*times);
        }
        None
    }

    /// How often the first decisions take a token.
    pub(crate) fn times(
        &self,
        system: &System,
        decisions: &[Decision],
        taking: &Taking<'_>,
    ) -> usize
        requires { AreTakings system.now decisions.now self.now }
        ensures { result ≤ count_of taking.now.token.now
            (taken_so_far system.now taking.now.inst.now taking.now.place
            (take (length self.now.counts.items) decisions.now)) }
    {
        let mut at = self.keys.last(key_of(taking));
        while at > 0 {
            if let Some(times) = self.times_up_to(system, decisions, taking, at - 1) {
                return times;
            }
            at = self.keys.before(at - 1);
        }
        0
    }

    // What is kept of one more decision.
    fn put(&mut self, alloc: Global, key: usize, times: usize) -> Result<(), NoMemory>
        ensures put { OnOk result (self.new.counts.items ≡ self.old.counts.items ++ times ∷ []) }
        ensures err { OnErr result (self.new.counts.items ≡ self.old.counts.items) }
    {
        self.counts.reserve(1)?;
        self.keys.push(alloc, key)?;
        self.counts.push_reserved(times);
        Ok(())
    }

    // The next decision comes in.
    fn put_next(
        &mut self,
        alloc: Global,
        system: &System,
        decisions: &[Decision],
    ) -> Result<(), NoMemory>
        requires next { length self.old.counts.items < length decisions.now }
        requires takings { AreTakings system.now decisions.now self.old }
        ensures takings { AreTakings system.now decisions.now self.new }
        ensures one { OnOk result
            (length self.new.counts.items ≡ length self.old.counts.items + 1) }
    {
        let i = self.counts.len();
        let decision = &decisions[i];
        match taking_of(system, decision) {
            Some(taking) => {
                let times = self.times(system, decisions, &taking);
                self.put(alloc, key_of(&taking), times.saturating_add(1))?;
                Ok(())
            }
            None => {
                self.put(alloc, i, 0)?;
                Ok(())
            }
        }
    }

    /// The decisions come in that aren't there yet.
    pub(crate) fn catch_up(
        &mut self,
        alloc: Global,
        system: &System,
        decisions: &[Decision],
    ) -> Result<(), NoMemory>
        requires { AreTakings system.now decisions.now self.old }
        ensures { AreTakings system.now decisions.now self.new }
    {
        while self.counts.len() < decisions.len() {
            self.put_next(alloc, system, decisions)?;
        }
        Ok(())
    }

    /// Lets all but those of the first decisions go.
    pub(crate) fn truncate(&mut self, count: usize)
        ensures { self.new.counts.items ≡ take count self.old.counts.items }
    {
        self.keys.truncate(count);
        self.counts.truncate(count);
    }
}
