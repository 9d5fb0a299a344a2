//! What the top call does without threads.
ghost use Rattle.std.specs.Prelude.{◌≡◌, ◌≢◌, ◌≤◌, ◌+◌, ◌⊎◌, Err, Some, None, map, string_bytes};
ghost use Rattle.std.specs.Prelude.{IfSome, codes, length, ℕ, ⊤};
ghost use Rattle.rn_model.specs.declared.log.Options.{Options};
ghost use Rattle.rn_notation.specs.Limits.{longest_text};
ghost use Rattle.rn_outside.specs.Bytes.{GivesAtMost, IsCalledSeldom};
ghost use Rattle.rn_outside.specs.Faults.{Rose, risen};
ghost use Rattle.rn_words.specs.declared.command.Command.{Command as Given};
ghost use Rattle.rn_words.specs.declared.command.Command.TheVariants as Command;
ghost use Rattle.rn_words.specs.declared.command.WordsFault.{WordsFault as Fault};
ghost use Rattle.rn_words.specs.Commands.{WordsOk};
ghost use Rattle.rn_words.specs.Reading.{reading};
ghost use Rattle.rn_answering.specs.declared.status.TheConstants.{DONE, FAULTED, NET_REFUSED};
ghost use Rattle.rn_answering.specs.declared.status.TheConstants.{RECORD_REFUSED, WORDS_REFUSED, WRITE_FAULT};
ghost use Rattle.rn_answering.specs.Input.{longest_input};
ghost use Rattle.rn_answering.specs.Writing.{TakesLine};
ghost use Rattle.rn_app.specs.Begun.{IfDone, IfWorking, IsDone, IsDue, NeedsThreads};
ghost use Rattle.rn_app.specs.TopCall.{IsStatus, IsOwnStatus, IsFaultStatus};
ghost use Rattle.rn_app.specs.TopCall.{Writes, WritesUnfinished, FailsToWrite, FailsToTell};
ghost use Rattle.rn_app.specs.TopCall.{IsNoInput, IsNoRecord, IsUnread, IsFine, MayFault, RoseOnceAtMost};

use crate::laws::input_laws;
use crate::preparing::{Prepared, prepare};
use rn_answering::{NO_MEMORY, READ_FAULT, Stopped, write_answer, write_line};
use rn_commands::{ReadyJob, answer_laws, parts_laws};
use rn_outside::{Sink, Source};
use rn_words::words_laws;
use std::alloc::Global;

/// How far the top call comes without threads.
#[derive(Drop)]
pub enum Begun {
    /// All is done, with this status.
    Done(u8),
    /// This run is due, and its memory is taken. Nothing is written yet.
    Working(ReadyJob),
}

/// Does all that the top call does without threads: it accepts the words and reads the input, refuses
/// them or does the command, and writes what that comes to. Of a command that needs threads it leaves
/// the run, with the memory that this needs to begin and to be written: `finish` does it. It doesn't
/// wait, so it returns.
pub fn begin<I: Source, O: Sink, E: Sink>(
    alloc: Global,
    words: &[String],
    input: &mut I,
    out: &mut O,
    err: &mut E,
) -> Begun
    // A run is due where words and input ask for one, and are accepted. Nothing is written then.
    ensures working { IfWorking result (IsDue (map string_bytes words.now)
        (I.left input.old) (I.left input.new)) }
    ensures unwritten { IfWorking result (λ job. (out.new ≡ out.old) × (err.new ≡ err.old)) }

    // All other commands are done. One that needs threads is done only where its net text is refused,
    // or by a fault or for want of memory.
    ensures done { (c : Given) → WordsOk (map string_bytes words.now) c → ¬ NeedsThreads c →
        IsDone result (λ status. ⊤) }
    ensures refuses_run { (c : Given) → WordsOk (map string_bytes words.now) c →
        NeedsThreads c → IfDone result (λ status. (status ≡ NET_REFUSED) ⊎ IsFaultStatus status) }

    // With each status but those of faults and of memory, the sinks took what the words and the input
    // come to, and this has that status.
    ensures writes { IfDone result (λ status. IsOwnStatus status →
        Writes (map string_bytes words.now) (I.left input.old) (I.left input.new) status
        (O.held out.old) (O.held out.new) (E.held err.old) (E.held err.new)) }
    ensures quiet { result ≡ Begun.Done DONE → err.new ≡ err.old }
    ensures only { IfDone result IsStatus }

    // The other statuses have their causes, and lines.
    ensures read_fault { result ≡ Begun.Done READ_FAULT →
        Rose (I.faults input.old) (I.faults input.new)
        × (out.new ≡ out.old) × TakesLine (E.held err.old) (E.held err.new)
        (E.faults err.old) (E.faults err.new) (codes "read fault\n") }
    ensures write_fault { result ≡ Begun.Done WRITE_FAULT →
        (Rose (O.faults out.old) (O.faults out.new) × (err.new ≡ err.old)
        × FailsToWrite (map string_bytes words.now) (I.left input.old) (I.left input.new)
        (O.held out.old) (O.held out.new))
        ⊎ (Rose (E.faults err.old) (E.faults err.new)
        × FailsToTell (map string_bytes words.now) (I.left input.old) (I.left input.new)
        (O.held out.old) (O.held out.new) (E.held err.old) (E.held err.new)) }
    ensures memory { result ≡ Begun.Done NO_MEMORY →
        TakesLine (E.held err.old) (E.held err.new) (E.faults err.old) (E.faults err.new)
        (codes "memory\n")
        × ((out.new ≡ out.old) ⊎ WritesUnfinished (map string_bytes words.now)
        (I.left input.old) (I.left input.new) (O.held out.old) (O.held out.new)) }

    // Each cause has its status, but for faults and where memory runs out.
    ensures refuses_words { (fault : Fault) → reading (map string_bytes words.now) ≡ Err fault →
        IsDone result (λ status.
        (status ≡ WORDS_REFUSED) ⊎ ((status ≡ WRITE_FAULT) ⊎ (status ≡ NO_MEMORY)))
        × (input.new ≡ input.old) }
    ensures refuses_input { (c : Given) → WordsOk (map string_bytes words.now) c →
        IfSome (I.left input.old) (λ bytes. IsNoInput c bytes →
        IfDone result (λ status. (status ≡ NET_REFUSED) ⊎ IsFaultStatus status)) }
    ensures refuses_record { (options : Options) →
        WordsOk (map string_bytes words.now) (Command.Replay options) →
        IfSome (I.left input.old) (λ bytes. IsNoRecord options bytes →
        IfDone result (λ status. (status ≡ RECORD_REFUSED) ⊎ IsFaultStatus status)) }
    ensures refuses_moved { (options : Options) →
        WordsOk (map string_bytes words.now) (Command.Moves options) →
        IfSome (I.left input.old) (λ bytes. IsNoRecord options bytes →
        IfDone result (λ status. (status ≡ RECORD_REFUSED) ⊎ IsFaultStatus status)) }
    ensures refuses_migrated { WordsOk (map string_bytes words.now) Command.Migrate →
        IfSome (I.left input.old) (λ bytes. IsUnread bytes →
        IfDone result (λ status. (status ≡ RECORD_REFUSED) ⊎ IsFaultStatus status)) }

    // Without faults, input that the command can do is done, or its run is due, unless memory runs
    // out; the least run of `counts` may besides end in a fault.
    ensures complete { (c : Given) → WordsOk (map string_bytes words.now) c →
        IsFine c (I.left input.old) →
        ¬ Rose (I.faults input.old) (I.faults input.new) →
        ¬ Rose (O.faults out.old) (O.faults out.new) →
        ¬ Rose (E.faults err.old) (E.faults err.new) →
        IfDone result (λ status.
        (status ≡ DONE) ⊎ ((status ≡ NO_MEMORY) ⊎ ((status ≡ FAULTED) × MayFault c))) }

    // What is taken of the input: no more than the longest and one byte, in no more reads than that
    // needs. `gen` takes nothing.
    ensures taken { GivesAtMost (longest_text + 1) (I.left input.old) (I.left input.new) }
    ensures reads { I.reads input.new ≤ I.reads input.old + (longest_text + 1) }
    ensures each_gives { IfSome (I.left input.old) (λ left.
        I.reads input.new ≤ I.reads input.old + (length left + 1)) }
    ensures inputless { (c : Given) → WordsOk (map string_bytes words.now) c →
        longest_input c ≡ None → input.new ≡ input.old }
    ensures limited { (c : Given) (limit : ℕ) → WordsOk (map string_bytes words.now) c →
        longest_input c ≡ Some limit →
        GivesAtMost (limit + 1) (I.left input.old) (I.left input.new)
        × (I.reads input.new ≤ I.reads input.old + (limit + 1)) }

    // A fault that rises in this call is never passed over: it is the only one, and it is reported
    // by the status, unless the line of status 4 or 6 meets one more.
    ensures input_faults { result ≢ Begun.Done READ_FAULT →
        I.faults input.new ≡ I.faults input.old }
    ensures one_read_fault { result ≡ Begun.Done READ_FAULT →
        I.faults input.new ≡ risen (I.faults input.old) }
    ensures out_faults { result ≢ Begun.Done WRITE_FAULT → O.faults out.new ≡ O.faults out.old }
    ensures err_faults { IfDone result (λ status. IsOwnStatus status →
        E.faults err.new ≡ E.faults err.old) }
    ensures few_faults { RoseOnceAtMost (O.faults out.old) (O.faults out.new)
        × RoseOnceAtMost (E.faults err.old) (E.faults err.new) }

    // Each output is called at most once for each byte that it takes, and once more, and never for none.
    ensures seldom { IsCalledSeldom (O.held out.old) (O.held out.new)
        (O.writes out.old) (O.writes out.new)
        × IsCalledSeldom (E.held err.old) (E.held err.new)
        (E.writes err.old) (E.writes err.new) }
    ensures none_empty { (O.empty_writes out.new ≡ O.empty_writes out.old)
        × (E.empty_writes err.new ≡ E.empty_writes err.old) }
{
    words_laws();
    input_laws();
    parts_laws();
    answer_laws();
    match prepare(alloc, words, input) {
        Ok(Prepared::Answered(answer)) => Begun::Done(write_answer(out, err, &answer)),
        Ok(Prepared::Due(ready)) => Begun::Working(ready),
        Err(Stopped::Refused(answer)) => Begun::Done(write_answer(out, err, &answer)),
        Err(Stopped::ReadFault) => Begun::Done(write_line(err, b"read fault\n", READ_FAULT)),
        Err(Stopped::NoMemory(_)) => Begun::Done(write_line(err, b"memory\n", NO_MEMORY)),
    }
}
