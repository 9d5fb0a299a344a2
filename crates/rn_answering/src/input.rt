//! The input of a command.
ghost use Rattle.std.specs.Prelude.{◌≡◌, ◌+◌, ◌≤◌, ℕ, [], None, Some, length};
ghost use Rattle.std.specs.Prelude.{IfOk, IfErr, IfSome, IsErrOf, IsOkAnd};
ghost use Rattle.rn_outside.specs.Bytes.{GivesAll, GivesAtMost};
ghost use Rattle.rn_outside.specs.Faults.{risen};
ghost use Rattle.rn_answering.specs.Input.{longest_input, IsUnread};

use crate::net_text::refused_at;
use crate::stopped::Stopped;
use rn_notation::Spot;
use rn_notation::limits::{LONGEST_NET_TEXT, LONGEST_TEXT};
use rn_outside::{ReadAllFault, Source, read_all};
use rn_words::Command;
use std::alloc::Global;

// All bytes of a source, which may be this many at most.
fn read_input<I: Source>(alloc: Global, input: &mut I, limit: usize) -> Result<Vec<u8>, Stopped>
    ensures all { IfOk result (λ bytes.
        GivesAll (I.left input.old) bytes.items (I.left input.new)) }
    ensures within { IfOk result (λ bytes. length bytes.items ≤ limit) }

    // Why the bytes aren't given: there are too many, or a read failed.
    ensures stopped { IfErr result (IsUnread limit (I.left input.old)
        (I.faults input.old) (I.faults input.new)) }

    // No more is taken than is needed to see that there is too much, and no more often.
    ensures taken { GivesAtMost (limit + 1) (I.left input.old) (I.left input.new) }
    ensures reads { I.reads input.new ≤ I.reads input.old + (limit + 1) }
    ensures each_gives { IfSome (I.left input.old) (λ left.
        I.reads input.new ≤ I.reads input.old + (length left + 1)) }

    // No fault is passed over.
    ensures one_fault { IsErrOf result Stopped.ReadFault →
        I.faults input.new ≡ risen (I.faults input.old) }
    ensures no_fault { ¬ IsErrOf result Stopped.ReadFault →
        I.faults input.new ≡ I.faults input.old }
{
    match read_all(alloc, input, limit) {
        Ok(bytes) => Ok(bytes),
        Err(ReadAllFault::ReadFault) => Err(Stopped::ReadFault),
        Err(ReadAllFault::TooLong) => Err(refused_at(alloc, b"P6", Spot { line: 1, column: 1 })),
        Err(ReadAllFault::NoMemory(no_memory)) => Err(Stopped::NoMemory(no_memory)),
    }
}

// How many bytes a command reads at most, if it reads.
fn longest_input(command: &Command) -> Option<usize>
    ensures { result ≡ longest_input command.now }
{
    match command {
        Command::Gen(_, _) | Command::GenSeeded(_, _, _) => None,
        Command::Replay(_) | Command::Session(_) | Command::Moves(_) | Command::Migrate => {
            Some(LONGEST_TEXT)
        }
        _ => Some(LONGEST_NET_TEXT),
    }
}

/// The input of a command, which is empty for one that reads none.
pub fn input_of<I: Source>(
    alloc: Global,
    command: &Command,
    input: &mut I,
) -> Result<Vec<u8>, Stopped>
    ensures inputless { longest_input command.now ≡ None →
        (input.new ≡ input.old) × IsOkAnd result (λ bytes. bytes.items ≡ []) }
    ensures all { (limit : ℕ) → longest_input command.now ≡ Some limit → IfOk result (λ bytes.
        GivesAll (I.left input.old) bytes.items (I.left input.new)
        × (length bytes.items ≤ limit)) }
    ensures stopped { (limit : ℕ) → longest_input command.now ≡ Some limit → IfErr result
        (IsUnread limit (I.left input.old) (I.faults input.old) (I.faults input.new)) }

    // No more is taken than is needed to see that there is too much, and no more often.
    ensures limited { (limit : ℕ) → longest_input command.now ≡ Some limit →
        GivesAtMost (limit + 1) (I.left input.old) (I.left input.new)
        × (I.reads input.new ≤ I.reads input.old + (limit + 1)) }
    ensures each_gives { IfSome (I.left input.old) (λ left.
        I.reads input.new ≤ I.reads input.old + (length left + 1)) }

    // No fault is passed over.
    ensures one_fault { IsErrOf result Stopped.ReadFault →
        I.faults input.new ≡ risen (I.faults input.old) }
    ensures no_fault { ¬ IsErrOf result Stopped.ReadFault →
        I.faults input.new ≡ I.faults input.old }
{
    match longest_input(command) {
        Some(limit) => read_input(alloc, input, limit),
        None => Ok(Vec::new(alloc)),
    }
}
