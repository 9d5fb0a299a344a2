//! The texts of weighted nets: from bytes to the net, or why a text is none.
#![tactic(auto)]

mod arc_reader;
mod checking;
mod fault;
mod first;
mod meaning;
mod names;
mod net_reader;
mod plain;
mod reading;
mod table;
mod words;

pub use fault::PtFault;
pub use reading::read_pt;
