//! Which instances an instance reaches by the tokens, and that bindings stay within them.
#![tactic(auto)]

mod laws;

pub use laws::{bindings_stay_in_reach, changes_stay_in_reach, firings_change_no_other};
