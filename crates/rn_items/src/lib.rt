//! A list and a box that contracts see as what they hold, so that a tree made of them is plain data.
#![tactic(auto)]

mod boxed;
mod items;
mod memory;

pub use boxed::Boxed;
pub use items::Items;
pub use memory::NoMemory;
