//! What a guard is read under where one of its variables is a token: the token where it stands, and
//! the values of the others as they are kept. So a guard is worked out for each token of a choice
//! before anything of it is decided or copied (`docs/SEARCH.md`, 'A binding grows by decisions').

use rn_calc::Values;
use rn_value::{InstRef, Value};

/// The values of a guard's variables, of which one is a token that wasn't taken yet. Nothing is
/// copied.
#[derive(Drop)]
pub struct Trial<'a> {
    pub this: &'a InstRef,
    pub var: u32,
    pub token: &'a Value,
    pub others: &'a [(u32, Value)],
}

impl Values for Trial<'_> {
    ghost use Rattle.rn_looking.specs.Trials.{trial_env};

    ghost env = { trial_env };

    fn this(&self) -> &InstRef {
        self.this
    }

    fn step(&self) -> Option<u64> {
        None
    }

    fn value(&self, x: u32) -> Option<&Value> {
        if self.var == x {
            return Some(self.token);
        }
        for pair in self.others {
            if pair.0 == x {
                return Some(&pair.1);
            }
        }
        None
    }
}
