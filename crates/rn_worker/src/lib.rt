//! Several workers that fire one net from threads of their own, over one desk.
#![tactic(auto)]

mod acting;
mod considering;
mod dropping;
mod gate;
mod looking;
mod meeting;
mod pacing;
mod posts;
mod ready;
mod standby;
mod tally;
mod team;
mod worker;
mod workers;

pub use acting::count_kept;
pub use considering::listed_at;
pub use dropping::drop_dead;
pub use gate::{Gate, NoGate};
pub use looking::{Round, Sight, View, view_below};
pub use meeting::MeetGate;
pub use pacing::Pace;
pub use ready::{Ended, Ready, get_ready};
pub use tally::{Done, Tallies, Tally};
pub use team::Task;
pub use worker::work;
pub use workers::{Finished, run_seeded, run_workers};
