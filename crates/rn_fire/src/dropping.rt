//! Dropping instances that aren't live.
ghost use Rattle.std.specs.Prelude.{◌≡◌, ℕ, Contains, nat_eq};
ghost use Rattle.std.specs.List.{list_any};
ghost use Rattle.rn_model.specs.Liveness.{IsLive};
ghost use Rattle.rn_model.specs.LivenessLaws.{without_instances};
ghost use Rattle.rn_fire.specs.States.{end_marking};

use crate::state::SimState;

impl SimState {
    /// These instances are kept no more; the log and all other instances stay. It takes no memory.
    pub fn sweep(&mut self, numbers: &[u32])
        requires { (n : ℕ) → Contains numbers.now n →
            ¬ IsLive self.old.setup.system (end_marking self.old) n }
        ensures state { self.new ≡ record self.old { table = self.new.table } }
        ensures table { self.new.table.marking
            ≡ without_instances (λ n. list_any (nat_eq n) numbers.now) self.old.table.marking }
    {
        self.table.remove_all(numbers);
    }
}
