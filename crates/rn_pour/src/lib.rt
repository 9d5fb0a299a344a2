//! Texts that flow into a sink by pieces of a fixed size.
#![tactic(auto)]

mod pouring;
mod whole;

pub use pouring::{flush, measure, pour};
pub use whole::write_text;
