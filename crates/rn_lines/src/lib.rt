//! The lines of records, each read by itself: values with the instances that they name, nodes by the
//! names of their transitions and variables, and whole lines by their form.
#![tactic(auto)]

mod cutting;
mod instances;
mod items;
mod laws;
mod lines;
mod nodes;
mod numerals;
mod quoted;
mod unread;
mod values;

pub use cutting::first_line;
pub use instances::Mention;
pub use items::ReadItem;
pub use laws::{line_laws, lines_are_read_by_their_grammar, value_laws};
pub use lines::{Ending, Lead, Line, ReadMark, ReadToken, read_line};
pub use nodes::{ReadGiven, ReadNode, read_node};
pub use numerals::is_numeral;
pub use unread::Unread;
pub use values::{MOST_BRACKETS, ReadValue, read_value};
