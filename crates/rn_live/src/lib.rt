//! Which of a table's instances are live, and which may be dropped.
#![tactic(auto)]

mod found;
mod holders;
mod laws;
mod listing;
mod marking;
mod room;
mod starting;
mod visiting;

pub use laws::places_are_few;
pub use listing::{garbage, live};
pub use room::LiveRoom;
