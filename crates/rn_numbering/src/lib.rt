//! The system that a plain form means: numbers in place of names.
#![tactic(auto)]

mod declarations;
mod numbering;

pub use numbering::system_of;
