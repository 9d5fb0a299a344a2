//! Replaying what a record tells: whether it is a run of a system with its true end and its marks.
#![tactic(auto)]

mod beginning;
mod begun;
mod ending;
mod fault;
mod finishing;
mod firing;
mod laws;
mod marks;
mod redoing;
mod searching;

pub use beginning::begin_replay;
pub use begun::BegunReplay;
pub use fault::ReplayFault;
pub use finishing::finish_replay;
pub use laws::replay_laws;
pub use searching::replay;
