//! Stepping by hand: a session lists what is enabled, fires what is chosen, and takes back.
#![tactic(auto)]

mod answering;
mod firing;
mod listing;
mod naming;
mod serving;
mod session;
mod showing;
mod undoing;

pub use rn_served::FireAnswer;
pub use serving::serve;
pub use session::{Session, open_session};
