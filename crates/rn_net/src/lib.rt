//! Whole net texts: what they are, with names in place of numbers, and their grammar.
#![tactic(auto)]

mod constant_reader;
mod constants;
mod cursor;
mod declaration_reader;
mod inscription_reader;
mod kind_reader;
mod kinds;
mod laws;
mod net_reader;
mod part;
mod plain;
mod reading;
mod refusal;
mod system_reader;

pub use constants::{PConst, PConstForm, PConsts};
pub use kinds::{PKind, PKindForm, PKinds};
pub use laws::net_laws;
pub use plain::{
    PChannel, PChannels, PInscriptions, PMax, PNet, PNets, PPlace, PPlaces, PTransition,
    PTransitions, PVar, PVars, Plain,
};
pub use reading::read_system;
pub use refusal::Refusal;
