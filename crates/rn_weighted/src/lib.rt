//! Weighted place/transition nets: places with numbers of black tokens, and transitions whose arcs
//! take and put as many tokens as their weights say.
#![tactic(auto)]

mod length;
pub mod limits;
mod weighted;

pub use length::has_text_within;
pub use weighted::{WArc, WArcs, WPlace, WPlaces, WTransition, WTransitions, Weighted};
