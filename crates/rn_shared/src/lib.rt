//! A value with several owners that contracts see as that value.
#![tactic(auto)]

mod shared;

pub use shared::Shared;
