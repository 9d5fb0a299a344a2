//! What expressions are read under, looked up by reference.
ghost use Rattle.std.specs.Prelude.{◌≡◌, option_copied};
ghost use Rattle.rn_model.specs.Evaluation.{Env};
ghost use Rattle.rn_model.specs.Lists.{value_beside};

use crate::given::Given;
use rn_value::{InstRef, Value};

/// Something that has an instance and the values of variables, and lends them.
pub trait Values {
    /// What an expression is read under.
    ghost env: { Self → Env };

    /// The instance that `this` names.
    fn this(&self) -> &InstRef
        ensures { result.now ≡ (env self.now).this };

    /// The number of the firing, where `step()` has one.
    fn step(&self) -> Option<u64>
        ensures { result ≡ (env self.now).step };

    /// The value of a variable, where it has one.
    fn value(&self, x: u32) -> Option<&Value>
        ensures { option_copied result ≡ value_beside (env self.now).pairs x };
}

impl Values for Given {
    ghost use Rattle.rn_calc.specs.link.Given.{env_given};

    ghost env = { env_given };

    fn this(&self) -> &InstRef {
        &self.this
    }

    fn step(&self) -> Option<u64> {
        Some(self.step)
    }

    fn value(&self, x: u32) -> Option<&Value> {
        for pair in self.pairs.as_slice() {
            if pair.0 == x {
                return Some(&pair.1);
            }
        }
        None
    }
}
