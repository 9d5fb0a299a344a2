//! Searching for the bindings that are enabled at a marking: what is looked for, what each choice
//! offers, and why nothing is missed. The laws leave the order of decisions open, so those who
//! search (`rn_looking`, `rn_branch`) decide by cost alone what comes first (`docs/SEARCH.md`, 'Why
//! it misses nothing').
#![tactic(auto)]

mod deciding_node;
mod laws;
mod offering;
mod point;
mod problem;
mod tokens;

pub use laws::{
    forced_are_made, nothing_is_missed, one_way, points_are_allowed, room_falls, sound_decisions,
    starts_find_room, starts_find_tokens, stuck_means_none, tokens_are_narrowed, what_is_found,
    what_is_left, what_may_be_cut,
};
pub use point::{Called, Point};
pub use problem::Problem;
