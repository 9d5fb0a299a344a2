//! What the program does with its words, and with which status it ends.
ghost use Rattle.std.specs.Prelude.{◌≡◌, ◌⊎◌, codes, drop, map, string_bytes, IfErr, IfOk};
ghost use Rattle.rn_outside.specs.Faults.{Rose};
ghost use Rattle.rn_words.specs.declared.command.Command.{Command as Given};
ghost use Rattle.rn_words.specs.Commands.{WordsOk};
ghost use Rattle.rn_answering.specs.declared.status.TheConstants.{DONE, FAULTED, NO_MEMORY};
ghost use Rattle.rn_answering.specs.declared.status.TheConstants.{READ_FAULT, WRITE_FAULT};
ghost use Rattle.rn_answering.specs.Writing.{TakesLine};
ghost use Rattle.rn_app.specs.TopCall.{IsFine, IsOwnStatus, IsStatus, MayFault};
ghost use Rattle.rn_app.specs.TopCall.{FailsToTell, FailsToWrite, Writes};
ghost use Rattle.rn_app.specs.TopCall.{WritesUnfinished};

use crate::streams::Streams;
use crate::words::after_name;
use rn_app::renew_top;
use rn_outside::{Sink, Source};
use rn_worker::NoGate;
use std::alloc::Global;
use std::sync::Wait;
use std::thread::Threads;

/// The status with which the program ends: that of the top call with the words after its name, or
/// the one in place of its words.
pub(crate) fn ending<R: Threads + Wait + Sync, I: Source, O: Sink, E: Sink>(
    rt: &R,
    alloc: Global,
    words: &Result<Vec<String>, u8>,
    streams: &mut Streams<I, O, E>,
) -> u8
    // Without words it ends with their status, and reads and writes nothing.
    ensures wordless { IfErr words.now (λ status. (result ≡ status) × (streams.new ≡ streams.old)) }

    // Else the sinks take what the words and the input come to, as the top call says.
    ensures only { IfOk words.now (λ given. IsStatus result) }
    ensures writes { IfOk words.now (λ given. IsOwnStatus result →
        Writes (map string_bytes (drop 1 given.items))
        (I.left streams.old.input) (I.left streams.new.input) result
        (O.held streams.old.out) (O.held streams.new.out)
        (E.held streams.old.err) (E.held streams.new.err)) }
    ensures quiet { IfOk words.now (λ given. result ≡ DONE →
        streams.new.err ≡ streams.old.err) }

    // The other statuses have the causes and the lines that the top call says.
    ensures read_fault { IfOk words.now (λ given. result ≡ READ_FAULT →
        Rose (I.faults streams.old.input) (I.faults streams.new.input)
        × (streams.new.out ≡ streams.old.out)
        × TakesLine (E.held streams.old.err) (E.held streams.new.err)
        (E.faults streams.old.err) (E.faults streams.new.err) (codes "read fault\n")) }
    ensures write_fault { IfOk words.now (λ given. result ≡ WRITE_FAULT →
        (Rose (O.faults streams.old.out) (O.faults streams.new.out)
        × (streams.new.err ≡ streams.old.err)
        × FailsToWrite (map string_bytes (drop 1 given.items))
        (I.left streams.old.input) (I.left streams.new.input)
        (O.held streams.old.out) (O.held streams.new.out))
        ⊎ (Rose (E.faults streams.old.err) (E.faults streams.new.err)
        × FailsToTell (map string_bytes (drop 1 given.items))
        (I.left streams.old.input) (I.left streams.new.input)
        (O.held streams.old.out) (O.held streams.new.out)
        (E.held streams.old.err) (E.held streams.new.err))) }
    ensures memory { IfOk words.now (λ given. result ≡ NO_MEMORY →
        TakesLine (E.held streams.old.err) (E.held streams.new.err)
        (E.faults streams.old.err) (E.faults streams.new.err) (codes "memory\n")
        × ((streams.new.out ≡ streams.old.out)
        ⊎ WritesUnfinished (map string_bytes (drop 1 given.items))
        (I.left streams.old.input) (I.left streams.new.input)
        (O.held streams.old.out) (O.held streams.new.out))) }

    // Without faults, input that the command can do is done, unless memory runs out; a net's run may
    // besides end in a fault.
    ensures complete { IfOk words.now (λ given. (c : Given) →
        WordsOk (map string_bytes (drop 1 given.items)) c →
        IsFine c (I.left streams.old.input) →
        ¬ Rose (I.faults streams.old.input) (I.faults streams.new.input) →
        ¬ Rose (O.faults streams.old.out) (O.faults streams.new.out) →
        ¬ Rose (E.faults streams.old.err) (E.faults streams.new.err) →
        (result ≡ DONE) ⊎ ((result ≡ NO_MEMORY) ⊎ ((result ≡ FAULTED) × MayFault c))) }
{
    match words {
        Ok(words) => renew_top(
            rt,
            alloc,
            after_name(words),
            &mut streams.input,
            &mut streams.out,
            &mut streams.err,
            &NoGate,
        ),
        Err(status) => *status,
    }
}
