//! What words and input come to without threads: an answer, or a run that is due.
ghost use Rattle.std.specs.Prelude.{◌≡◌, ◌≤◌, ◌+◌, ℕ, List, Err, Some, None, map, string_bytes};
ghost use Rattle.std.specs.Prelude.{IfSome, IsErrOf, length};
ghost use Rattle.rn_notation.specs.Limits.{longest_text};
ghost use Rattle.rn_outside.specs.Bytes.{GivesAtMost};
ghost use Rattle.rn_outside.specs.Faults.{risen};
ghost use Rattle.rn_words.specs.declared.command.Command.{Command as Given};
ghost use Rattle.rn_words.specs.declared.command.WordsFault.{WordsFault as Fault};
ghost use Rattle.rn_words.specs.Commands.{WordsOk};
ghost use Rattle.rn_words.specs.Reading.{reading};
ghost use Rattle.rn_answering.specs.declared.status.TheConstants.{NET_REFUSED};
ghost use Rattle.rn_answering.specs.Input.{longest_input};
ghost use Rattle.rn_app.specs.Begun.{CanRun, NeedsThreads};
ghost use Rattle.rn_app.specs.link.Begun.{IfAnswered, IsPrepared, IsReadied, PreparesOrStops};

use rn_answering::{Answer, Stopped, check, command_of, input_of, print};
use rn_commands::{
    Job, Pick, ReadyJob, counts, enabled, migrate, moves, net_job, pt, ready_job, replay, session,
    workload_job,
};
use rn_outside::Source;
use rn_words::{Command, words_laws};
use std::alloc::Global;

/// What words and input come to.
#[derive(Drop)]
pub(crate) enum Prepared {
    /// This is written, and then all is done.
    Answered(Answer),
    /// This run is due, and its memory is taken.
    Due(ReadyJob),
}

// The run that a command asks for, with its memory.
fn due(alloc: Global, job: Job) -> Result<Prepared, Stopped>
    requires { CanRun job }
    ensures { IsReadied job result }
{
    Ok(Prepared::Due(ready_job(alloc, job)?))
}

// What a command comes to on its input, or the run that it asks for.
fn work(alloc: Global, command: Command, bytes: &[u8]) -> Result<Prepared, Stopped>
    requires given { (words : List (List ℕ)) × WordsOk words command }
    requires few { length bytes.now ≤ longest_text }
    ensures { IsPrepared command bytes.now result }
{
    words_laws();
    match command {
        Command::Run(options) => due(alloc, net_job(alloc, options, Pick::Any, bytes)?),
        Command::RunLeast(options) => due(alloc, net_job(alloc, options, Pick::Least, bytes)?),
        Command::RunSeeded(options, seed) => {
            due(alloc, net_job(alloc, options, Pick::Seeded(seed), bytes)?)
        }
        Command::Gen(copies, options) => {
            due(alloc, workload_job(alloc, copies, options, Pick::Any)?)
        }
        Command::GenSeeded(copies, options, seed) => {
            due(
                alloc,
                workload_job(alloc, copies, options, Pick::Seeded(seed))?,
            )
        }
        Command::Check => Ok(Prepared::Answered(check(alloc, bytes)?)),
        Command::Print => Ok(Prepared::Answered(print(alloc, bytes)?)),
        Command::Enabled(depth) => Ok(Prepared::Answered(enabled(alloc, depth, bytes)?)),
        Command::Replay(options) => Ok(Prepared::Answered(replay(alloc, options, bytes)?)),
        Command::Session(options) => Ok(Prepared::Answered(session(alloc, options, bytes)?)),
        Command::Counts(options) => Ok(Prepared::Answered(counts(alloc, options, bytes)?)),
        Command::Moves(options) => Ok(Prepared::Answered(moves(alloc, options, bytes)?)),
        Command::Pt => Ok(Prepared::Answered(pt(alloc, bytes)?)),
        Command::Migrate => Ok(Prepared::Answered(migrate(alloc, bytes)?)),
    }
}

/// What the words come to: the command is read, then its input, and then what needs no threads is done.
pub(crate) fn prepare<I: Source>(
    alloc: Global,
    words: &[String],
    input: &mut I,
) -> Result<Prepared, Stopped>
    // What is answered, refused or due is what the words and the input come to; or a read failed, or
    // memory ran out.
    ensures comes { PreparesOrStops (map string_bytes words.now) (I.left input.old)
        (I.left input.new) (I.faults input.old) (I.faults input.new) result }
    ensures refuses_run { (c : Given) → WordsOk (map string_bytes words.now) c →
        NeedsThreads c → IfAnswered result (λ a. a.status ≡ NET_REFUSED) }
    ensures refuses_words { (fault : Fault) → reading (map string_bytes words.now) ≡ Err fault →
        (input.new ≡ input.old) × (¬ IsErrOf result Stopped.ReadFault) }
    ensures inputless { (c : Given) → WordsOk (map string_bytes words.now) c →
        longest_input c ≡ None → input.new ≡ input.old }
    ensures limited { (c : Given) (limit : ℕ) → WordsOk (map string_bytes words.now) c →
        longest_input c ≡ Some limit →
        GivesAtMost (limit + 1) (I.left input.old) (I.left input.new)
        × (I.reads input.new ≤ I.reads input.old + (limit + 1)) }
    ensures taken { GivesAtMost (longest_text + 1) (I.left input.old) (I.left input.new) }
    ensures reads { I.reads input.new ≤ I.reads input.old + (longest_text + 1) }
    ensures each_gives { IfSome (I.left input.old) (λ left.
        I.reads input.new ≤ I.reads input.old + (length left + 1)) }
    ensures faults { ¬ IsErrOf result Stopped.ReadFault →
        I.faults input.new ≡ I.faults input.old }
    ensures one_fault { IsErrOf result Stopped.ReadFault →
        I.faults input.new ≡ risen (I.faults input.old) }
{
    words_laws();
    let command = command_of(alloc, words)?;
    let bytes = input_of(alloc, &command, input)?;
    work(alloc, command, bytes.as_slice())
}
