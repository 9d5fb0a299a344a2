//! All that the program does, in one call from words and bytes to bytes and a status.
#![tactic(auto)]

mod beginning;
mod finishing;
mod laws;
mod preparing;
mod top;

pub use beginning::{Begun, begin};
pub use finishing::finish;
pub use laws::input_laws;
pub use top::renew_top;
