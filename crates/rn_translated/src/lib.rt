//! The translation of weighted place/transition nets into systems of nets, and the laws that both
//! have the same runs.
#![tactic(auto)]

mod laws;
mod translating;

pub use laws::{
    records_tell_runs, translations_are_accepted, translations_have_their_length,
    translations_run_alike,
};
pub use translating::translate;
