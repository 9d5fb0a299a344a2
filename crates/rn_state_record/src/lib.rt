//! The record of a state: the text of its log, with the marks of what is live at its end.
#![tactic(auto)]

mod laws;
mod pouring;
mod writing;

pub use laws::logs_have_text;
pub use pouring::{PourFault, pour_record};
pub use writing::write_record;
