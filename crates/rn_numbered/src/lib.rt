//! Inscriptions, kinds and constants with numbers in place of names.
#![tactic(auto)]

mod guards;
mod inscribed;
mod numbered;
mod numbers;

pub use inscribed::{
    Tables, actions_of, arcs_of, creations_of, downlinks_of, equalities_of, guards_of, uplink_of,
};
pub use numbered::{capacity_of, kind_of, kinds_of, values_of};
pub use numbers::{ChannelNumbers, NameNumbers, channel_names_of, names_of};
