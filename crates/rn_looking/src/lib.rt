//! What a look at a binding that grows comes to: how a search for enabled bindings goes on. It has
//! to be right in what is forced and what ends the branch; of choices it may take any, since each
//! alternative is tried. What they count as decides only the order (`docs/SEARCH.md`, 'What it does
//! next').
#![tactic(auto)]

mod among;
mod answers;
mod arcs;
mod best;
mod calls;
mod equated;
mod flexible;
mod guard_parts;
mod guard_vars;
mod guards;
mod inhibitors;
mod known;
mod look;
mod looking;
mod narrowed;
mod near;
mod parts;
mod results;
mod tested;
mod told;
mod trial;
mod views;

pub use among::SHARES;
pub use guard_vars::put_guard;
pub use known::values_but;
pub use look::Look;
pub use looking::look_at_all;
pub use parts::transition_in;
pub use tested::{Remembered, Tested, TextChoice};
pub use trial::Trial;
