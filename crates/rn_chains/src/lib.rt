//! Keys in the order in which they came, of which the last that is one is found without going
//! through all.
#![tactic(auto)]

mod chains;

pub use chains::Chains;
