//! A branch of a search for enabled bindings: what is decided so far, and how it goes on. It joins
//! what may be decided (`rn_search`) and what looks say (`rn_looking`) to a search over choices
//! (`rn_choices`). What it leaves out is proved to lead nowhere; all else that saves work changes
//! only the order (`docs/SEARCH.md`, 'What it does next').
#![tactic(auto)]

mod beginning;
mod branch;
mod entered;
mod finder;
mod made;
mod offer;
mod part;
mod reached;
mod refusals;
mod room;
mod settling;
mod taken_up;
mod taking;
mod takings;
mod testing;
mod token_key;
mod tried;
mod trying;
mod vain;

pub use branch::Branch;
pub use rn_looking::SHARES;
pub use room::BranchRoom;
