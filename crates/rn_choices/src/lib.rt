//! A search over choices: it finds a solution, or reports that there is none.
//!
//! It is generic in what grows towards a solution by decisions (`Grows`). The choices stand in a
//! vector, newest last, so the depth of the machine's stack doesn't grow with their number.
#![tactic(auto)]

mod asked;
mod choice;
mod flag;
mod grows;
mod next;
mod searching;
mod sharing;
mod stack;
mod step;
mod within;

pub use asked::{Asked, ToTheEnd};
pub use choice::Choice;
pub use flag::{Flag, Halt};
pub use grows::Grows;
pub use next::Next;
pub use searching::{all, find, find_while};
pub use stack::{Choices, Stack};
pub use within::{Cut, Within};
