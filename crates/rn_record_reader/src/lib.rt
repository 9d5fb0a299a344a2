//! Reading records: the run that the lines of a record tell, with its marks, or the first line that
//! is bad.
#![tactic(auto)]

mod bindings;
mod called;
mod due;
mod ends;
mod entries;
mod fault;
mod firings;
mod items;
mod judging;
mod laws;
mod level;
mod lines;
mod maker;
mod makers;
mod marks;
mod nodes;
mod opening;
mod prints;
mod reader;
mod record;
mod role;

pub use fault::RecordFault;
pub use laws::record_laws;
pub use record::read_record;
