//! The marks of the live part of a table: which tokens lie in the places of its live instances.
#![tactic(auto)]

mod line;
mod listing;
mod pouring;
mod short;
mod tokens;

pub use listing::live_part;
pub use pouring::{LiveMarks, pour_marks};
pub use short::marks_are_short;
