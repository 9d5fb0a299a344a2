//! Sources and sinks of bytes, in memory and over readers and writers of the standard library. Each
//! counts its faults. A source is read to its end, and a sink takes all of a piece.
#![tactic(auto)]

mod calls;
mod mem_sink;
mod mem_source;
mod reading;
mod sink;
mod source;
mod std_sink;
mod std_source;
mod writing;

pub use mem_sink::MemSink;
pub use mem_source::MemSource;
pub use reading::{ReadAllFault, read_all};
pub use sink::{Sink, SinkFailed};
pub use source::{Source, SourceFailed};
pub use std_sink::StdSink;
pub use std_source::StdSource;
pub use writing::{WriteFault, write_all};
