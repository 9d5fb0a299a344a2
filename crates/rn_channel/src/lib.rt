//! Which transitions answer a call, and how deep the calls below a transition go at least.
#![tactic(auto)]

mod heights;
mod laws;
mod rows;
mod sharing;
mod uplinks;

pub use laws::calls_need_levels;
pub use uplinks::Uplinks;
