//! What a net text declares: names, kinds and initial tokens, and what is broken there.
#![tactic(auto)]

mod channels;
mod declared;
mod fault;
mod first;
mod kinds;
mod known;
pub mod laws;
mod located;
mod names;
pub mod numbered;
pub mod pattern;
mod places;
mod table;

pub use channels::{DeclaredChannels, declare_channels};
pub use fault::{CheckFault, Fault, Rule};
pub use first::First;
pub use known::{KindTable, kinds_of, number_all, number_pattern};
pub use located::{Located, tell_past};
pub use names::{Named, declare_all};
pub use numbered::{Numbered, Numbers};
pub use pattern::{Pattern, Patterns};
pub use places::{declare_places, declare_vars};
pub use table::{Declared, DeclaredPlaces, NameTable};
