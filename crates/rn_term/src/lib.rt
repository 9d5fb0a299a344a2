//! A store of terms with unknown parts, and its undo trail.
//!
//! A term is a variable, a value, or built of terms that were added before it. Contracts see a
//! store as its terms and the notes of its trail. What it says are its assignments: the lists of
//! values, one for each term, that fit its terms and its links.
#![tactic(auto)]

mod flags;
mod free_variables;
mod grounding;
mod laws;
mod levels;
mod lists;
mod seen;
mod store;
mod term;

pub use laws::{forced_is_ground, ground_is_forced, marks_lead_back, marks_stay, terms_extend};
pub use store::Store;
pub use term::{Ids, Mark, Term};
