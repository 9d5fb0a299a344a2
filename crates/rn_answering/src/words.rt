//! The words of the command line.
ghost use Rattle.std.specs.Prelude.{◌≡◌, Err, Ok, map, string_bytes, IfOk, IfErr, IsOkAnd};
ghost use Rattle.rn_words.specs.declared.command.Command.{Command as Given};
ghost use Rattle.rn_words.specs.declared.command.WordsFault.{WordsFault as Fault};
ghost use Rattle.rn_words.specs.Commands.{WordsOk};
ghost use Rattle.rn_words.specs.Reading.{reading};
ghost use Rattle.rn_answering.specs.Lines.{words_line};
ghost use Rattle.rn_answering.specs.Refusing.{Stops, refusal};

use crate::answer::refused;
use crate::lines::number_line;
use crate::status::WORDS_REFUSED;
use crate::stopped::Stopped;
use rn_words::{Command, WordsFault, read_words};
use std::alloc::Global;

// The refusal of words, by its code and the number of the first bad one.
fn refused_words(alloc: Global, fault: WordsFault) -> Stopped
    ensures { Stops (λ a. a ≡ refusal WORDS_REFUSED (words_line fault)) result }
{
    let (code, at) = match fault {
        WordsFault::U1(at) => (b"U1", at),
        WordsFault::U2(at) => (b"U2", at),
        WordsFault::U3(at) => (b"U3", at),
    };
    match number_line(alloc, code.as_slice(), at as u64) {
        Ok(line) => Stopped::Refused(refused(alloc, WORDS_REFUSED, line)),
        Err(no_memory) => Stopped::NoMemory(no_memory),
    }
}

/// The command that the words of the command line give.
pub fn command_of(alloc: Global, words: &[String]) -> Result<Command, Stopped>
    ensures accepted { IfOk result (λ command. WordsOk (map string_bytes words.now) command) }
    ensures given { (c : Given) → reading (map string_bytes words.now) ≡ Ok c →
        IsOkAnd result (λ command. command ≡ c) }
    ensures refused { (fault : Fault) → reading (map string_bytes words.now) ≡ Err fault →
        IfErr result (Stops (λ a. a ≡ refusal WORDS_REFUSED (words_line fault))) }
{
    match read_words(words) {
        Ok(command) => Ok(command),
        Err(fault) => Err(refused_words(alloc, fault)),
    }
}
