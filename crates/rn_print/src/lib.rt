//! The canonical text of nets.
#![tactic(auto)]

mod conditions;
mod constants;
mod expressions;
mod inscriptions;
mod kinds;
mod laws;
mod nets;
mod pieces;

pub use laws::printing_laws;
pub use nets::{print_in, print_system};
