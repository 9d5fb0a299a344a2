//! Runs in which each firing is the first of those that are enabled, and laws on them.
#![tactic(auto)]

mod laws;

pub use laws::{least_bindings_are_one, least_logs_are_one, least_runs_grow};
