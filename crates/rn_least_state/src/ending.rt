//! The ends of a log other than by an undefined firing, and dropping instances. None of these calls
//! takes memory.
ghost use Rattle.std.specs.Prelude.{◌≡◌, ℕ, None, Contains, nat_eq};
ghost use Rattle.std.specs.List.{list_any};
ghost use Rattle.rn_model.specs.declared.log.Reason.TheVariants as End;
ghost use Rattle.rn_model.specs.Liveness.{IsLive};
ghost use Rattle.rn_model.specs.LivenessLaws.{without_instances};
ghost use Rattle.rn_fire.specs.Ends.{EndsAtLimit, EndsDead, MayGoOn, WasDead, with_end};
ghost use Rattle.rn_fire.specs.States.{end_marking};

use crate::state::LeastState;
use rn_fire::NoneCommit;
use rn_items::NoMemory;

impl LeastState {
    /// Ends the log as dead, unless it has ended. Nothing was enabled after the first `seen` entries.
    pub fn commit_none(&mut self, seen: u64) -> NoneCommit
        requires dead { WasDead self.old seen }
        requires below { MayGoOn self.old }
        ensures { EndsDead self.old result self.new }
    {
        let answer = self.state.commit_none(seen);
        // For its clause: what is left is a state of a run (`IsState`).
        let _length = self.state.length();
        answer
    }

    /// Ends the log at the step limit, where it hasn't ended and has so many firings. Returns whether
    /// it did.
    pub fn end_steps(&mut self) -> bool
        ensures { EndsAtLimit self.old result self.new }
    {
        let ends = self.state.end_steps();
        // For its clause: what is left is a state of a run (`IsState`).
        let _length = self.state.length();
        ends
    }

    /// Ends the log for want of memory, which whoever calls was refused.
    pub fn end_memory(&mut self, refused: NoMemory)
        requires { self.old.ended ≡ None }
        ensures { self.new ≡ with_end End.Memory self.old }
    {
        self.state.end_memory(refused);
        // For its clause: what is left is a state of a run (`IsState`).
        let _length = self.state.length();
    }

    /// These instances are kept no more; the log and all other instances stay.
    pub fn sweep(&mut self, numbers: &[u32])
        requires { (n : ℕ) → Contains numbers.now n →
            ¬ IsLive self.old.setup.system (end_marking self.old) n }
        ensures state { self.new ≡ record self.old { table = self.new.table } }
        ensures table { self.new.table.marking
            ≡ without_instances (λ n. list_any (nat_eq n) numbers.now) self.old.table.marking }
    {
        self.state.sweep(numbers);
    }
}
