//! The top call: all that the program does.
ghost use Rattle.std.specs.Prelude.{◌≡◌, ◌≢◌, ◌≤◌, ◌+◌, ◌⊎◌, Err, Some, None, map, string_bytes};
ghost use Rattle.std.specs.Prelude.{IfSome, codes, length, ℕ};
ghost use Rattle.rn_model.specs.declared.log.Options.{Options};
ghost use Rattle.rn_model.specs.declared.log.Reason.{Reason};
ghost use Rattle.rn_model.specs.declared.log.Reason.TheVariants as End;
ghost use Rattle.rn_model.specs.declared.log.FaultKind.{FaultKind};
ghost use Rattle.rn_model.specs.declared.binding.Binding.{Binding};
ghost use Rattle.rn_notation.specs.Limits.{longest_text};
ghost use Rattle.rn_outside.specs.Bytes.{GivesAtMost, IsCalledSeldom};
ghost use Rattle.rn_outside.specs.Faults.{Rose, risen};
ghost use Rattle.rn_words.specs.declared.command.Command.{Command as Given};
ghost use Rattle.rn_words.specs.declared.command.Command.TheVariants as Command;
ghost use Rattle.rn_words.specs.declared.command.WordsFault.{WordsFault as Fault};
ghost use Rattle.rn_words.specs.Commands.{WordsOk};
ghost use Rattle.rn_words.specs.Reading.{reading};
ghost use Rattle.rn_answering.specs.declared.status.TheConstants.{DONE, FAULTED, NET_REFUSED};
ghost use Rattle.rn_answering.specs.declared.status.TheConstants.{RECORD_REFUSED, WORDS_REFUSED, WRITE_FAULT};
ghost use Rattle.rn_answering.specs.Input.{longest_input};
ghost use Rattle.rn_answering.specs.Writing.{TakesLine};
ghost use Rattle.rn_app.specs.TopCall.{IsStatus, IsOwnStatus, IsFaultStatus};
ghost use Rattle.rn_app.specs.TopCall.{Writes, WritesRun, WritesLeastRun, WritesUnfinished};
ghost use Rattle.rn_app.specs.TopCall.{FailsToWrite, FailsToTell};
ghost use Rattle.rn_app.specs.TopCall.{IsNoInput, IsNoRecord, IsUnread, IsFine, MayFault, RoseOnceAtMost};

use crate::beginning::{Begun, begin};
use crate::finishing::finish;
use crate::laws::input_laws;
use rn_answering::{NO_MEMORY, READ_FAULT};
use rn_commands::{answer_laws, parts_laws};
use rn_outside::{Sink, Source};
use rn_words::words_laws;
use rn_worker::Gate;
use std::alloc::Global;
use std::sync::Wait;
use std::thread::Threads;

/// Does all that the program does: it accepts the words, reads the input, does the command, and
/// writes what it comes to. `words` are those after the program's name. The workers of a run call
/// `gate` between a search and its commit. It returns one of the statuses of the crate. `begin` does
/// all that needs no threads, and returns; only a run that it leaves may wait, which `finish` does.
pub fn renew_top<R: Threads + Wait + Sync, I: Source, O: Sink, E: Sink, G: Gate + Sync>(
    rt: &R,
    alloc: Global,
    words: &[String],
    input: &mut I,
    out: &mut O,
    err: &mut E,
    gate: &G,
) -> u8
    // A run that is written is a true run of the net text that was read: with this status the log
    // ended as dead or at the step limit, and with that one in a firing that is undefined.
    ensures run { result ≡ DONE → (options : Options) →
        WordsOk (map string_bytes words.now) (Command.Run options) →
        (reason : Reason) × ((reason ≡ End.Dead) ⊎ (reason ≡ End.Steps))
        × WritesRun options (I.left input.old) (I.left input.new)
        (O.held out.old) (O.held out.new) reason }
    ensures faulted { result ≡ FAULTED → (options : Options) →
        WordsOk (map string_bytes words.now) (Command.Run options) →
        (cause : FaultKind) × (b : Binding)
        × WritesRun options (I.left input.old) (I.left input.new)
        (O.held out.old) (O.held out.new) (End.Fault cause b) }

    // The same of a run with a seed, which changes nothing of what may be written.
    ensures seeded { result ≡ DONE → (options : Options) (seed : ℕ) →
        WordsOk (map string_bytes words.now) (Command.RunSeeded options seed) →
        (reason : Reason) × ((reason ≡ End.Dead) ⊎ (reason ≡ End.Steps))
        × WritesRun options (I.left input.old) (I.left input.new)
        (O.held out.old) (O.held out.new) reason }
    ensures seeded_faulted { result ≡ FAULTED → (options : Options) (seed : ℕ) →
        WordsOk (map string_bytes words.now) (Command.RunSeeded options seed) →
        (cause : FaultKind) × (b : Binding)
        × WritesRun options (I.left input.old) (I.left input.new)
        (O.held out.old) (O.held out.new) (End.Fault cause b) }

    // The same of a least run, and what is written is one: each firing is by the first binding that is
    // enabled where it fires, in the order of bindings.
    ensures least { result ≡ DONE → (options : Options) →
        WordsOk (map string_bytes words.now) (Command.RunLeast options) →
        (reason : Reason) × ((reason ≡ End.Dead) ⊎ (reason ≡ End.Steps))
        × WritesLeastRun options (I.left input.old) (I.left input.new)
        (O.held out.old) (O.held out.new) reason }
    ensures least_faulted { result ≡ FAULTED → (options : Options) →
        WordsOk (map string_bytes words.now) (Command.RunLeast options) →
        (cause : FaultKind) × (b : Binding)
        × WritesLeastRun options (I.left input.old) (I.left input.new)
        (O.held out.old) (O.held out.new) (End.Fault cause b) }

    // With each status but those of faults and of memory, the sinks took what the words and the input
    // come to, and this has that status.
    ensures writes { IsOwnStatus result → Writes (map string_bytes words.now)
        (I.left input.old) (I.left input.new) result
        (O.held out.old) (O.held out.new) (E.held err.old) (E.held err.new) }
    ensures quiet { result ≡ DONE → err.new ≡ err.old }
    ensures only { IsStatus result }

    // The other statuses have their causes, and lines.
    ensures read_fault { result ≡ READ_FAULT → Rose (I.faults input.old) (I.faults input.new)
        × (out.new ≡ out.old) × TakesLine (E.held err.old) (E.held err.new)
        (E.faults err.old) (E.faults err.new) (codes "read fault\n") }
    ensures write_fault { result ≡ WRITE_FAULT →
        (Rose (O.faults out.old) (O.faults out.new) × (err.new ≡ err.old)
        × FailsToWrite (map string_bytes words.now) (I.left input.old) (I.left input.new)
        (O.held out.old) (O.held out.new))
        ⊎ (Rose (E.faults err.old) (E.faults err.new)
        × FailsToTell (map string_bytes words.now) (I.left input.old) (I.left input.new)
        (O.held out.old) (O.held out.new) (E.held err.old) (E.held err.new)) }
    ensures memory { result ≡ NO_MEMORY →
        TakesLine (E.held err.old) (E.held err.new) (E.faults err.old) (E.faults err.new)
        (codes "memory\n")
        × ((out.new ≡ out.old) ⊎ WritesUnfinished (map string_bytes words.now)
        (I.left input.old) (I.left input.new) (O.held out.old) (O.held out.new)) }

    // Each cause has its status, but for faults and where memory runs out.
    ensures refuses_words { (fault : Fault) → reading (map string_bytes words.now) ≡ Err fault →
        ((result ≡ WORDS_REFUSED) ⊎ ((result ≡ WRITE_FAULT) ⊎ (result ≡ NO_MEMORY)))
        × (input.new ≡ input.old) }
    ensures refuses_input { (c : Given) → WordsOk (map string_bytes words.now) c →
        IfSome (I.left input.old) (λ bytes. IsNoInput c bytes →
        (result ≡ NET_REFUSED) ⊎ IsFaultStatus result) }
    ensures refuses_record { (options : Options) →
        WordsOk (map string_bytes words.now) (Command.Replay options) →
        IfSome (I.left input.old) (λ bytes. IsNoRecord options bytes →
        (result ≡ RECORD_REFUSED) ⊎ IsFaultStatus result) }
    ensures refuses_moved { (options : Options) →
        WordsOk (map string_bytes words.now) (Command.Moves options) →
        IfSome (I.left input.old) (λ bytes. IsNoRecord options bytes →
        (result ≡ RECORD_REFUSED) ⊎ IsFaultStatus result) }
    ensures refuses_migrated { WordsOk (map string_bytes words.now) Command.Migrate →
        IfSome (I.left input.old) (λ bytes. IsUnread bytes →
        (result ≡ RECORD_REFUSED) ⊎ IsFaultStatus result) }

    // Without faults, input that the command can do is done, unless memory runs out; a net's run may
    // besides end in a fault.
    ensures complete { (c : Given) → WordsOk (map string_bytes words.now) c →
        IsFine c (I.left input.old) →
        ¬ Rose (I.faults input.old) (I.faults input.new) →
        ¬ Rose (O.faults out.old) (O.faults out.new) →
        ¬ Rose (E.faults err.old) (E.faults err.new) →
        (result ≡ DONE) ⊎ ((result ≡ NO_MEMORY) ⊎ ((result ≡ FAULTED) × MayFault c)) }

    // What is taken of the input: no more than the longest and one byte, in no more reads than that
    // needs. `gen` takes nothing.
    ensures taken { GivesAtMost (longest_text + 1) (I.left input.old) (I.left input.new) }
    ensures reads { I.reads input.new ≤ I.reads input.old + (longest_text + 1) }
    ensures each_gives { IfSome (I.left input.old) (λ left.
        I.reads input.new ≤ I.reads input.old + (length left + 1)) }
    ensures inputless { (c : Given) → WordsOk (map string_bytes words.now) c →
        longest_input c ≡ None → input.new ≡ input.old }
    ensures limited { (c : Given) (limit : ℕ) → WordsOk (map string_bytes words.now) c →
        longest_input c ≡ Some limit →
        GivesAtMost (limit + 1) (I.left input.old) (I.left input.new)
        × (I.reads input.new ≤ I.reads input.old + (limit + 1)) }

    // A fault that rises in this call is never passed over: it is the only one, and it is reported
    // by the status, unless the line of status 4 or 6 meets one more.
    ensures input_faults { result ≢ READ_FAULT → I.faults input.new ≡ I.faults input.old }
    ensures one_read_fault { result ≡ READ_FAULT →
        I.faults input.new ≡ risen (I.faults input.old) }
    ensures out_faults { result ≢ WRITE_FAULT → O.faults out.new ≡ O.faults out.old }
    ensures err_faults { IsOwnStatus result → E.faults err.new ≡ E.faults err.old }
    ensures few_faults { RoseOnceAtMost (O.faults out.old) (O.faults out.new)
        × RoseOnceAtMost (E.faults err.old) (E.faults err.new) }

    // Each output is called at most once for each byte that it takes, and once more, and never for none.
    ensures seldom { IsCalledSeldom (O.held out.old) (O.held out.new)
        (O.writes out.old) (O.writes out.new)
        × IsCalledSeldom (E.held err.old) (E.held err.new)
        (E.writes err.old) (E.writes err.new) }
    ensures none_empty { (O.empty_writes out.new ≡ O.empty_writes out.old)
        × (E.empty_writes err.new ≡ E.empty_writes err.old) }
{
    words_laws();
    input_laws();
    parts_laws();
    answer_laws();
    match begin(alloc, words, input, out, err) {
        Begun::Done(status) => status,
        Begun::Working(ready) => finish(rt, alloc, ready, gate, out, err),
    }
}
