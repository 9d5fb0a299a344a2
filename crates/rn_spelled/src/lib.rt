//! What a text spells is well formed.
#![tactic(auto)]

pub mod laws;
