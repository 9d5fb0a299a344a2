//! Bindings that grow by decisions, each of which may come in by those before it. To certify a
//! given binding and to search for one are both this, with different choices, so what is forced is
//! worked out in one place. Contracts see a system and its decisions, and no store
//! (`docs/SEARCH.md`, 'A binding grows by decisions').
#![tactic(auto)]

mod bringing;
mod building;
mod decision;
mod growing;
mod keys;
mod laid;
mod laws;
mod room;
mod slot;
mod slots;
mod thing;

pub use bringing::transition_in;
pub use decision::{Caller, Decision, Decisions, Head, Site, Way, copy_head};
pub use growing::Growing;
pub use laws::{
    followers_are_decided, good_systems_open, kinded_decisions_force_kinds, more_decisions,
    new_is_undecided,
};
pub use room::GrowingRoom;
