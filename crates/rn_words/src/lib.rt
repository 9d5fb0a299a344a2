//! The words of the command line: which command they give, or which word is the first bad one.
//!
//! Commands, their options, the limits of values and the defaults stand in one place, `table.rt`.
//! Reading takes no memory.
#![tactic(auto)]

mod chosen;
mod command;
mod laws;
mod options;
mod reading;
mod table;
mod values;

pub use command::{Command, WordsFault};
pub use laws::words_laws;
pub use reading::read_words;
