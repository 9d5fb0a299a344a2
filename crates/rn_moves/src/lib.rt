//! What each firing of a log moved: the tokens that it took and put, and the text of that.
#![tactic(auto)]

mod gathering;
mod laws;
mod lead;
mod lines;
mod moving;
mod naming;
mod order;
mod token;
mod writer;
mod writing;

pub use laws::{moves_add_up, moves_are_one, moves_take_what_is_there};
pub use token::{Moves, Token, Tokens};
pub use writing::{logs_have_moves, write_moves};
