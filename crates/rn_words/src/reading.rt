//! From the words of the command line to a command.
ghost use Rattle.std.specs.Prelude.{◌≡◌, ◌↔◌, map, string_bytes, Ok};
ghost use Rattle.rn_words.specs.Reading.{reading, read_after};
ghost use Rattle.rn_words.specs.Commands.{WordsOk};

use crate::chosen::command_of;
use crate::command::{Command, WordsFault};
use crate::options::read_options;
use crate::table::{MOST_COPIES, Verb, verb_named};
use crate::values::value_within;

// The words after `gen`: a number, and options.
fn read_gen(words: &[String]) -> Result<Command, WordsFault>
    ensures { result ≡ read_after Verb.Gen (map string_bytes words.now) }
{
    match words {
        [] => Err(WordsFault::U3(2)),
        [count, rest @ ..] => match value_within(1, MOST_COPIES, count.as_bytes()) {
            None => Err(WordsFault::U3(2)),
            Some(copies) => Ok(command_of(Verb::Gen, copies, read_options(Verb::Gen, rest, 3)?)),
        },
    }
}

// The words after a command's word.
fn read_after(verb: Verb, words: &[String]) -> Result<Command, WordsFault>
    ensures { result ≡ read_after verb (map string_bytes words.now) }
{
    match verb {
        Verb::Gen => read_gen(words),
        _ => Ok(command_of(verb, 0, read_options(verb, words, 2)?)),
    }
}

// The command that words give, or the first bad one.
fn read(words: &[String]) -> Result<Command, WordsFault>
    ensures { result ≡ reading (map string_bytes words.now) }
{
    match words {
        [] => Err(WordsFault::U1(1)),
        [first, rest @ ..] => match verb_named(first.as_bytes()) {
            None => Err(WordsFault::U1(1)),
            Some(verb) => read_after(verb, rest),
        },
    }
}

/// The command that words give, or the first bad word and what is wrong with it. The words are
/// those after the program's name.
///
/// The command's word comes first; after `gen` comes the number of workers, from 1 to 10,000. Then
/// options follow in any order, each at most once, as `--name value` or `--name=value`. A number is
/// one to six digits. It takes no memory.
pub fn read_words(words: &[String]) -> Result<Command, WordsFault>
    ensures reads { result ≡ reading (map string_bytes words.now) }
    ensures accepts { (c : Command) → result ≡ Ok c ↔ WordsOk (map string_bytes words.now) c }
{
    read(words)
}
