//! Calls of the top call, over a source of one's own and sinks in memory.
use rn_app::renew_top;
use rn_items::NoMemory;
use rn_outside::{MemSink, Source};
use rn_worker::Gate;
use std::alloc::Global;
use std::sync::Wait;
use std::thread::Threads;

// The words of a line, which stand one space apart.
fn words_of(alloc: Global, line: &str) -> Result<Vec<String>, NoMemory> {
    let mut words = Vec::new(alloc);
    for word in line.split(' ') {
        words.push(String::from_str(alloc, word)?)?;
    }
    Ok(words)
}

/// A sink for at most 1,000 bytes.
pub(crate) fn sink(alloc: Global) -> Result<MemSink, NoMemory> {
    MemSink::new(alloc, 1000, 1000, Vec::new(alloc))
}

/// The status of a call with these words, whose workers call this gate.
pub(crate) fn status<R: Threads + Wait + Sync, S: Source, G: Gate + Sync>(
    rt: &R,
    alloc: Global,
    line: &str,
    input: &mut S,
    out: &mut MemSink,
    err: &mut MemSink,
    gate: &G,
) -> Result<u8, NoMemory> {
    let words = words_of(alloc, line)?;
    Ok(renew_top(rt, alloc, words.as_slice(), input, out, err, gate))
}
