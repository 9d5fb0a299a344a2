//! The call that a row asks for, over a source and sinks in memory.
ghost use Rattle.std.specs.Prelude.{IfOk};
ghost use Rattle.renew_rows.specs.Judging.{Comes};

use crate::row::Call;
use rn_app::renew_top;
use rn_items::NoMemory;
use rn_outside::{MemSink, MemSource};
use rn_worker::NoGate;
use std::alloc::Global;
use std::sync::Wait;
use std::thread::Threads;

/// What came of a call.
#[derive(Drop)]
pub(crate) struct Found {
    pub(crate) status: u8,
    pub(crate) out: MemSink,
    pub(crate) err: MemSink,
}

/// Calls the program, with room for so many bytes on each of its outputs.
pub(crate) fn make<R: Threads + Wait + Sync>(
    rt: &R,
    alloc: Global,
    call: Call,
    out_room: usize,
    err_room: usize,
) -> Result<Found, NoMemory>
    ensures { IfOk result (λ found. Comes call found) }
{
    let mut input = MemSource::new(call.input, call.reads_fail);
    let mut out = MemSink::new(alloc, out_room, call.most, call.out_fails)?;
    let mut err = MemSink::new(alloc, err_room, call.most, call.err_fails)?;
    let words = call.words.as_slice();
    let status = renew_top(rt, alloc, words, &mut input, &mut out, &mut err, &NoGate);
    Ok(Found { status, out, err })
}
