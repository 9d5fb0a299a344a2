//! The value of an expression, and whether a condition is true.
//!
//! Each call recurses as deep as an expression or a condition nests, and goes through parts and
//! alternatives by a loop. It looks at each part once, and copies the values that it gives back.
#![tactic(auto)]

mod conditions;
mod evaluation;
mod given;
mod integers;
mod mentions;
mod node_values;
mod reading;
mod values;

pub use conditions::{holds, is_true};
pub use evaluation::{calc, evaluate};
pub use given::{Given, VarVals};
pub use mentions::holds_action_var;
pub use node_values::NodeValues;
pub use reading::{Reading, have_one_value, read};
pub use values::Values;
