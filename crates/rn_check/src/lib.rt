//! Which net texts are nets: the check, and the system of each text that it accepts.
#![tactic(auto)]

mod checked;
pub mod laws;

pub use checked::check_system;
pub use rn_declared::{CheckFault, Fault, Pattern, Patterns, Rule};
pub use rn_rules::first_fault;
