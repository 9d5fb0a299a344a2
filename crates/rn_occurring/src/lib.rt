//! Which variables of a net occur in a transition.
#![tactic(auto)]

mod marks;
mod occurring;

pub use marks::put_vars;
