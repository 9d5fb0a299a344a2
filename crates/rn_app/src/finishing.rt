//! What the top call does with threads.
ghost use Rattle.std.specs.Prelude.{◌≡◌, ◌⊎◌, codes};
ghost use Rattle.rn_outside.specs.Bytes.{IsCalledSeldom};
ghost use Rattle.rn_answering.specs.Writing.{TakesLine};
ghost use Rattle.rn_commands.specs.Jobs.{JobComesTo};
ghost use Rattle.rn_commands.specs.Written.{IsEndless, Tells};

use rn_answering::{NO_MEMORY, write_line};
use rn_commands::ReadyJob;
use rn_outside::Sink;
use rn_worker::Gate;
use std::alloc::Global;
use std::sync::Wait;
use std::thread::Threads;

/// Does the run that `begin` left, and writes what it comes to. Its memory was taken before: where a
/// worker is refused more, the run ends for that, and is written as far as it came. This may wait for
/// the threads of its workers.
pub fn finish<R: Threads + Wait + Sync, O: Sink, E: Sink, G: Gate + Sync>(
    rt: &R,
    alloc: Global,
    ready: ReadyJob,
    gate: &G,
    out: &mut O,
    err: &mut E,
) -> u8
    // What the run comes to is written, also with the status of memory. The one other way to that
    // status is a record of 2^64 - 1 bytes or more: then nothing of it is written.
    ensures recorded { Tells (JobComesTo ready) result
        (record {
          held = O.held out.old;
          faults = O.faults out.old;
          writes = O.writes out.old;
          empty_writes = O.empty_writes out.old;
        })
        (record {
          held = O.held out.new;
          faults = O.faults out.new;
          writes = O.writes out.new;
          empty_writes = O.empty_writes out.new;
        })
        (record {
          held = E.held err.old;
          faults = E.faults err.old;
          writes = E.writes err.old;
          empty_writes = E.empty_writes err.old;
        })
        (record {
          held = E.held err.new;
          faults = E.faults err.new;
          writes = E.writes err.new;
          empty_writes = E.empty_writes err.new;
        })
        err.old err.new
        ⊎ (IsEndless ready × (result ≡ NO_MEMORY) × (out.new ≡ out.old)
        × TakesLine (E.held err.old) (E.held err.new) (E.faults err.old) (E.faults err.new)
        (codes "memory\n")) }

    // Each output is called at most once for each byte that it takes, and once more, and never for none.
    ensures seldom { IsCalledSeldom (O.held out.old) (O.held out.new)
        (O.writes out.old) (O.writes out.new)
        × IsCalledSeldom (E.held err.old) (E.held err.new)
        (E.writes err.old) (E.writes err.new) }
    ensures none_empty { (O.empty_writes out.new ≡ O.empty_writes out.old)
        × (E.empty_writes err.new ≡ E.empty_writes err.old) }
{
    match ready.run_to(rt, alloc, gate, out, err) {
        Some(status) => status,
        None => write_line(err, b"memory\n", NO_MEMORY),
    }
}
