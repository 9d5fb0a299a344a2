//! The texts of values and of nodes, written into windows.
#![tactic(auto)]

mod digits;
mod marks;
mod naming;
mod nodes;
mod numbering;
mod places;
mod values;

pub use digits::{put_int, put_numeral};
pub use naming::Naming;
pub use nodes::{put_instance, put_net_name, put_nodes};
pub use numbering::{NetNames, Numbered};
pub use values::put_value;
