//! Which instances may refer to which, and which of them reach some.
#![tactic(auto)]

mod backwards;
mod holding;
mod references;
mod values;

pub use backwards::{may_reach, reaching};
pub use holding::hold_all;
