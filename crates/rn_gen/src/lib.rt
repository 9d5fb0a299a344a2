//! The workload text: a net system with a given number of workers, for measuring.
#![tactic(auto)]

mod laws;
mod text;

pub use laws::workload_laws;
pub use text::{MOST_COPIES, gen_text};
