//! The first of the bindings that start in an instance, kept for each token of one of its places.
#![tactic(auto)]

mod alone;
mod firsts;
mod holding;
mod kept;
mod laws;
mod marked;
mod parting;
mod places;
mod share;
mod touching;
mod walking;

pub use firsts::PartedFirsts;
pub use laws::bindings_are_parted;
pub use share::Share;
