//! Kept lists of the bindings that are enabled in each instance: after a firing only those are made anew
//! that it may have changed.
#![tactic(auto)]

mod busy;
mod counting;
mod fresh;
mod held;
mod kept;
mod lists;
mod putting;
mod refreshing;
mod running;
mod touched;

pub use lists::{Cands, Lists, open_lists};
pub use running::{Counted, Counts, run_counts};
