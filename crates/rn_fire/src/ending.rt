//! The ends of a log. Only one by an undefined firing takes memory.
ghost use Rattle.std.specs.Prelude.{◌≡◌, [], All, None, OnErr, OnOk};
ghost use Rattle.rn_model.specs.declared.log.Entry.TheVariants as Entry;
ghost use Rattle.rn_model.specs.declared.log.Reason.TheVariants as End;
ghost use Rattle.rn_model.specs.Bindings.{IsNodeOf};
ghost use Rattle.rn_spell.specs.Made.{made_in};
ghost use Rattle.rn_fire.specs.Ends.{EndsAtLimit, EndsDead, MayEndBy, MayGoOn, WasDead, with_end};

use crate::nets::add_nets;
use crate::state::SimState;
use rn_acts::nets_made;
use rn_items::NoMemory;
use rn_model::{Binding, Entry, FaultKind, Reason};
use std::alloc::Global;

/// What a worker that finds nothing enabled is told.
#[derive(Clone, Copy, Debug, PartialEq, Eq)]
pub enum NoneCommit {
    /// The log hadn't ended, and now ends so.
    Dead,

    /// The log had ended.
    Ended,
}

impl SimState {
    /// Ends a log that hasn't ended, by a reason that has no binding. There is room for the end.
    fn end(&mut self, reason: Reason)
        requires going { self.old.ended ≡ None }
        requires true_end { MayEndBy self.old reason }
        requires none { made_in self.old.setup.system (Entry.End reason) ≡ [] }
        ensures { self.new ≡ with_end reason self.old }
    {
        self.entries.push_reserved(Entry::End(reason));
    }

    /// Ends a log that hasn't ended with the fault of a binding. There is room for the end, and the
    /// nets that the binding names come with it.
    pub(crate) fn end_by_fault(
        &mut self,
        alloc: Global,
        cause: FaultKind,
        binding: Binding,
    ) -> Result<(), NoMemory>
        requires going { self.old.ended ≡ None }
        requires true_end { MayEndBy self.old (End.Fault cause binding) }
        requires nodes { All (IsNodeOf self.old.setup.system) binding.nodes }
        ensures ok { OnOk result (self.new ≡ with_end (End.Fault cause binding) self.old) }
        ensures err { OnErr result (self.new ≡ self.old) }
    {
        let made = nets_made(alloc, &self.system, &binding)?;
        self.nets.reserve(made.len())?;
        add_nets(&mut self.nets, made.as_slice());
        self.entries
            .push_reserved(Entry::End(Reason::Fault(cause, binding)));
        Ok(())
    }

    /// Ends the log as dead, unless it has ended. Nothing was enabled after the first `seen`
    /// entries.
    pub fn commit_none(&mut self, seen: u64) -> NoneCommit
        requires dead { WasDead self.old seen }
        requires below { MayGoOn self.old }
        ensures { EndsDead self.old result self.new }
    {
        if self.has_ended() {
            return NoneCommit::Ended;
        }
        self.end(Reason::Dead);
        NoneCommit::Dead
    }

    /// Ends the log at the step limit, where it hasn't ended and has so many firings. Returns whether
    /// it did.
    pub fn end_steps(&mut self) -> bool
        ensures { EndsAtLimit self.old result self.new }
    {
        if self.has_ended() || self.entries.len() != self.options.steps as usize {
            return false;
        }
        self.end(Reason::Steps);
        true
    }

    /// Ends the log for want of memory, which whoever calls was refused.
    pub fn end_memory(&mut self, _refused: NoMemory)
        requires { self.old.ended ≡ None }
        ensures { self.new ≡ with_end End.Memory self.old }
    {
        self.end(Reason::Memory);
    }

    /// Ends the log as a record tells that a run for want of memory ended. Nothing is refused here.
    pub fn end_memory_as_told(&mut self)
        requires { self.old.ended ≡ None }
        ensures { self.new ≡ with_end End.Memory self.old }
    {
        self.end(Reason::Memory);
    }
}
