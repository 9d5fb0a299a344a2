//! What the lines of records name, looked up in a system: nets, transitions, places and variables
//! by their names, values by their kinds, and instances by their numbers.
#![tactic(auto)]

mod directory;
mod instances;
mod marks;
mod nodes;
mod refusal;
mod tables;

pub use directory::Directory;
pub use instances::{are_called, is_called, node_is_called, tokens_are_called};
pub use marks::{FoundMark, find_mark, find_token};
pub use nodes::{FoundNode, find_node};
pub use refusal::Refusal;
