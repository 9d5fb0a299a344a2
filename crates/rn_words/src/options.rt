//! Options and their values, word by word.
ghost use Rattle.std.specs.Prelude.{◌≡◌, ◌≤◌, map, string_bytes, option_map};
ghost use Rattle.rn_words.specs.Reading.{after_dashes, name_length, name_part, value_part, option_of, with_value};
ghost use Rattle.rn_words.specs.Reading.{after_word, read_from};
ghost use Rattle.rn_words.specs.Choices.{nothing};
ghost use Rattle.std.specs.Prelude.{None, Ok, length};

use crate::chosen::Chosen;
use crate::command::WordsFault;
use crate::table::{Setting, Verb, setting_named, takes};
use crate::values::value_of;

/// The options given so far, and the one whose value is the next word.
#[derive(Clone, Copy, Debug)]
pub(crate) struct State {
    pub(crate) chosen: Chosen,
    pub(crate) awaits: Option<Setting>,
}

// What stands after the two dashes with which a word begins.
fn after_dashes(word: &[u8]) -> Option<&[u8]>
    ensures { option_map (λ rest. rest.now) result ≡ after_dashes word.now }
{
    match word {
        [b'-', b'-', rest @ ..] => Some(rest),
        _ => None,
    }
}

// How many bytes stand before the first `=`, or at all.
fn name_length(word: &[u8]) -> usize
    ensures is { result ≡ name_length word.now }
    ensures within { result ≤ length word.now }
{
    for (i, byte) in word.iter().enumerate() {
        if *byte == b'=' {
            return i;
        }
    }
    word.len()
}

// What stands before the first `=`, and all where there is none.
fn name_part(word: &[u8]) -> &[u8]
    ensures { result.now ≡ name_part word.now }
{
    &word[..name_length(word)]
}

// What stands after the first `=`.
fn value_part(word: &[u8]) -> Option<&[u8]>
    ensures { option_map (λ value. value.now) result ≡ value_part word.now }
{
    match &word[name_length(word)..] {
        [] => None,
        [_, value @ ..] => Some(value),
    }
}

// The option that a word names, where it may stand: the command takes it, it wasn't given, and it
// goes with those that were.
fn option_of(verb: Verb, chosen: &Chosen, word: &[u8]) -> Option<Setting>
    ensures { result ≡ option_of verb chosen.now word.now }
{
    let rest = match after_dashes(word) {
        Some(rest) => rest,
        None => return None,
    };
    match setting_named(name_part(rest)) {
        Some(setting) => {
            let stands = takes(verb, setting) && !chosen.has(setting) && chosen.goes_with(setting);
            if stands { Some(setting) } else { None }
        }
        None => None,
    }
}

// The option is given the value that a word spells.
fn with_value(
    chosen: Chosen,
    setting: Setting,
    at: usize,
    value: &[u8],
) -> Result<State, WordsFault>
    ensures { result ≡ with_value chosen setting at value.now }
{
    match value_of(setting, value) {
        Some(value) if chosen.fits(value) => Ok(State {
            chosen: chosen.with(setting, value),
            awaits: None,
        }),
        _ => Err(WordsFault::U3(at)),
    }
}

/// Reads one more word, which has this number.
pub(crate) fn after_word(
    verb: Verb,
    at: usize,
    word: &[u8],
    state: State,
) -> Result<State, WordsFault>
    ensures { result ≡ after_word verb at word.now state.chosen state.awaits }
{
    let State { chosen, awaits } = state;
    if let Some(setting) = awaits {
        return with_value(chosen, setting, at, word);
    }
    match option_of(verb, &chosen, word) {
        None => Err(WordsFault::U2(at)),
        Some(setting) => match value_part(word) {
            None => Ok(State {
                chosen,
                awaits: Some(setting),
            }),
            Some(value) => with_value(chosen, setting, at, value),
        },
    }
}

/// Reads options to the end of the words, the first of which has this number.
pub(crate) fn read_options(verb: Verb, words: &[String], first: usize) -> Result<Chosen, WordsFault>
    requires { first ≤ 3 }
    ensures { result ≡ read_from verb first nothing None (map string_bytes words.now) }
{
    let mut state = State {
        chosen: Chosen::nothing(),
        awaits: None,
    };
    for (i, word) in words.iter().enumerate() {
        state = after_word(verb, first + i, word.as_bytes(), state)?;
    }
    match state.awaits {
        None => Ok(state.chosen),
        Some(_) => Err(WordsFault::U3(first + words.len())),
    }
}
