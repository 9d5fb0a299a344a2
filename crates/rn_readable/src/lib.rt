//! The values of the runs of net texts can be read again, once they stand in a record.
#![tactic(auto)]

mod laws;

pub use laws::logs_are_readable;
