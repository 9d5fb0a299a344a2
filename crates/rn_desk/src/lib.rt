//! A desk: a ticket lock that keeps one state, whose entries grow by at most one a turn. Tickets
//! are served in order, so there is one history, and what each worker has seen and authored fits it
//! in every schedule of the threads (`docs/WORKERS.md`, 'Turns').
#![tactic(auto)]

mod closing;
mod desk;
mod doors;
mod kept;
mod kinds;
mod lent;
mod opening;
mod rule;
mod sharing;
mod view;

pub use closing::{Closed, close};
pub use desk::{Desk, Pass, Turn};
pub use kept::Kept;
pub use opening::open_desk;
pub use rule::MOST_SEATS;
