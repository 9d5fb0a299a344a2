//! Texts that are written piece by piece, into room that was taken before.
#![tactic(auto)]

mod filling;
mod text;
mod window;

pub use filling::fill;
pub use text::{Plain, Text};
pub use window::Window;
