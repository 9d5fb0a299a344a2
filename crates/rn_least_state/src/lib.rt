//! The state of a least run: its log, each of whose firings is the first that is enabled, and the table
//! at the log's end.
#![tactic(auto)]

mod committing;
mod ending;
mod kept;
mod sharing;
mod state;

pub use committing::CommitAt;
pub use state::{LeastState, open_least};
