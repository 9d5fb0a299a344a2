//! What a session of stepping by hand is: its lines, and the answer to each.
#![tactic(auto)]

mod laws;
mod reading;
mod requests;

pub use laws::{number_laws, undo_laws};
pub use reading::{next_line, request_of};
pub use requests::{FireAnswer, Request};
