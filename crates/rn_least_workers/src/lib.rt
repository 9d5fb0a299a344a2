//! Several workers that do one least run from threads of their own, over one desk.
#![tactic(auto)]

mod acting;
mod considering;
mod looking;
mod posts;
mod ready;
mod team;
mod worker;
mod workers;

pub use ready::{LeastReady, get_least_ready};
pub use workers::run_least;
