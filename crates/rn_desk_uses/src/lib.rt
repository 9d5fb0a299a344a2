//! Workers that write on one sheet, kept in a desk.
#![tactic(auto)]

mod post;
mod sheet;
mod turns;
mod worker;

pub use post::RoundTally;
pub use sheet::{Line, Sheet};
pub use turns::{PassSight, look, look_all, write_note};
pub use worker::{work, write_sheet};
