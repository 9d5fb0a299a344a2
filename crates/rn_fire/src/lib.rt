//! The state of a run: its log, which only grows by true entries, and the table at the log's end.
#![tactic(auto)]

mod changed;
mod committing;
mod dropping;
mod ending;
mod kept;
mod nets;
mod outcome;
mod parts;
mod rewinding;
mod setup;
mod sharing;
mod state;

pub use committing::Commit;
pub use ending::NoneCommit;
pub use parts::Parts;
pub use setup::Setup;
pub use state::{SimState, open_state};
