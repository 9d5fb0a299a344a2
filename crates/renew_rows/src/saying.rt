//! What a line of a row says, by its first word.
ghost use Rattle.std.specs.Prelude.{◌≡◌, ◌≤◌, IfOk, IsTrue, option_map, string_bytes, None};
ghost use Rattle.renew_rows.specs.Lines.{after_bytes, heading};
ghost use Rattle.renew_rows.specs.Numbers.{SpellsNumber};
ghost use Rattle.renew_rows.specs.Pieces.{at_sign};
ghost use Rattle.renew_rows.specs.Spelling.{spelled};

use crate::lines::word_and_rest;
use crate::numbers::number_of;
use crate::spelling::spell;
use rn_items::NoMemory;
use std::alloc::{AllocError, AllocFailed, Global};

/// Why a row isn't read.
#[derive(Clone, Copy, PartialEq, Eq)]
pub(crate) enum Unread {
    /// A line can't be read.
    Line,
    NoMemory(NoMemory),
}

impl From<NoMemory> for Unread {
    fn from(no_memory: NoMemory) -> Unread {
        Unread::NoMemory(no_memory)
    }
}

impl From<AllocError> for Unread {
    fn from(error: AllocError) -> Unread {
        Unread::NoMemory(NoMemory::from(error))
    }
}

impl<T: Drop> From<AllocFailed<T>> for Unread {
    fn from(failed: AllocFailed<T>) -> Unread {
        Unread::NoMemory(NoMemory::from(failed))
    }
}

/// The first words of lines.
#[derive(Clone, Copy, PartialEq, Eq)]
pub(crate) enum Key {
    Words,
    ReadsFail,
    OutFails,
    ErrFails,
    Most,
    Status,
    In,
    Out,
    Err,
}

/// The key that a word is.
pub(crate) fn key_of(word: &[u8]) -> Option<Key> {
    if word == b"words".as_slice() {
        Some(Key::Words)
    } else if word == b"reads_fail".as_slice() {
        Some(Key::ReadsFail)
    } else if word == b"out_fails".as_slice() {
        Some(Key::OutFails)
    } else if word == b"err_fails".as_slice() {
        Some(Key::ErrFails)
    } else if word == b"most".as_slice() {
        Some(Key::Most)
    } else if word == b"status".as_slice() {
        Some(Key::Status)
    } else if word == b"in".as_slice() {
        Some(Key::In)
    } else if word == b"out".as_slice() {
        Some(Key::Out)
    } else if word == b"err".as_slice() {
        Some(Key::Err)
    } else {
        None
    }
}

// What stands after these bytes, where a line begins with them.
fn after_bytes<'a>(bytes: &[u8], line: &'a [u8]) -> Option<&'a [u8]>
    ensures { option_map (λ rest. rest.now) result ≡ after_bytes bytes.now line.now }
{
    if bytes.len() <= line.len() {
        let (front, rest) = line.split_at(bytes.len());
        if front == bytes {
            return Some(rest);
        }
    }
    None
}

/// The name of the row that a line begins, and whether it must differ.
pub(crate) fn heading_of(line: &[u8]) -> Option<(&[u8], bool)>
    ensures { option_map (λ x. (x.0.now, x.1)) result ≡ heading line.now }
{
    if let Some(name) = after_bytes(b"row ", line) {
        return Some((name, false));
    }
    match after_bytes(b"differs ", line) {
        Some(name) => Some((name, true)),
        None => None,
    }
}

/// Whether a line says nothing: it is empty, or begins with `#`.
pub(crate) fn says_nothing(line: &[u8]) -> bool
    ensures { IsTrue result → heading line.now ≡ None }
{
    match line {
        [] => true,
        [first, ..] => *first == b'#',
    }
}

// A number from 1.
fn count_of(word: &[u8]) -> Result<u64, Unread>
    ensures some { IfOk result (λ n. 1 ≤ n) }
    ensures spelled { IfOk result (λ n. SpellsNumber word.now n) }
{
    match number_of(word) {
        Some(number) if 1 <= number => Ok(number),
        _ => Err(Unread::Line),
    }
}

/// How many bytes a call takes at most.
pub(crate) fn most_of(word: &[u8]) -> Result<usize, Unread>
    ensures some { IfOk result (λ n. 1 ≤ n) }
    ensures spelled { IfOk result (λ n. SpellsNumber word.now n) }
{
    Ok(count_of(word)? as usize)
}

/// A status.
pub(crate) fn status_of(word: &[u8]) -> Result<u8, Unread>
    ensures { IfOk result (λ status. SpellsNumber word.now status) }
{
    match number_of(word) {
        Some(number) if number < 256 => Ok(number as u8),
        _ => Err(Unread::Line),
    }
}

/// The numbers of calls, parted by single blanks.
pub(crate) fn numbers_of(alloc: Global, text: &[u8]) -> Result<Vec<u64>, Unread> {
    let mut numbers = Vec::new(alloc);
    let mut rest = text;
    'words: loop {
        let (word, others) = word_and_rest(rest);
        numbers.push(count_of(word)?)?;
        match others {
            Some(after) => rest = after,
            None => return Ok(numbers),
        }
    }
}

// The word that a text spells, where it is UTF-8.
fn word_of(alloc: Global, text: &[u8]) -> Result<String, Unread>
    ensures { IfOk result (λ word. string_bytes word ≡ spelled at_sign text.now) }
{
    let mut bytes = Vec::new(alloc);
    spell(text, b"@", &mut bytes)?;
    match String::from_utf8(bytes) {
        Ok(word) => Ok(word),
        Err(_) => Err(Unread::Line),
    }
}

/// The words of a call, parted by single blanks.
pub(crate) fn words_of(alloc: Global, text: &[u8]) -> Result<Vec<String>, Unread> {
    let mut words = Vec::new(alloc);
    let mut rest = text;
    'words: loop {
        let (word, others) = word_and_rest(rest);
        words.push(word_of(alloc, word)?)?;
        match others {
            Some(after) => rest = after,
            None => return Ok(words),
        }
    }
}
