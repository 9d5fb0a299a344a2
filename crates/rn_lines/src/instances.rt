//! Instances, by the names of their nets and their numbers.
ghost use Rattle.std.specs.Prelude.{◌≡◌, ◌<◌, option_map};
ghost use Rattle.std.specs.List.{prefix_len};
ghost use Rattle.rn_value.specs.Characters.{is_name_byte};
ghost use Rattle.rn_value.specs.Words.{is_identifier, is_name};
ghost use Rattle.rn_lines.specs.Reading.{ReturnsRead, byte_at, bracketed_at, name_at, inst_at};
ghost use Rattle.rn_lines.specs.link.Said.{said};

use crate::numerals::numeral_at;
use crate::unread::Unread;
use rn_value::{is_letter, is_name_byte, reserved_word};

/// The greatest number that an instance may have.
const GREATEST: u64 = 4294967295;

/// An instance that a text names, as `worker[2]`: by the name of its net and by its number.
#[derive(Clone, Copy, Debug, Drop)]
pub struct Mention<'a> {
    pub name: &'a [u8],
    pub number: u32,
}

/// How many bytes of names bytes begin with.
fn name_length(bytes: &[u8]) -> usize
    ensures { result ≡ prefix_len is_name_byte bytes.now }
{
    for (i, byte) in bytes.iter().enumerate() {
        if !is_name_byte(*byte) {
            return i;
        }
    }
    bytes.len()
}

/// Whether bytes are a letter, then letters, digits and `_`.
fn is_identifier(word: &[u8]) -> bool
    ensures { result ≡ is_identifier word.now }
{
    let Some(first) = word.first() else {
        return false;
    };
    if !is_letter(*first) {
        return false;
    }
    for byte in word {
        if !is_name_byte(*byte) {
            return false;
        }
    }
    true
}

/// Whether bytes are a name: an identifier that is no reserved word.
fn is_name(word: &[u8]) -> bool
    ensures { result ≡ is_name word.now }
{
    is_identifier(word) && reserved_word(word).is_none()
}

/// The bytes after this byte, where it stands first.
pub(crate) fn bytes_after(byte: u8, bytes: &[u8]) -> Option<&[u8]>
    ensures { option_map (λ rest. rest.now) result ≡ byte_at byte bytes.now }
{
    match bytes.split_first() {
        Some((first, rest)) if *first == byte => Some(rest),
        _ => None,
    }
}

/// The same, for a byte that has to be there.
pub(crate) fn byte_at(byte: u8, bytes: &[u8]) -> Result<&[u8], Unread>
    ensures { ReturnsRead (λ x. x.now) result (byte_at byte bytes.now) }
{
    match bytes_after(byte, bytes) {
        Some(rest) => Ok(rest),
        None => Err(Unread::NotThere),
    }
}

/// The number of an instance, in brackets, and the bytes after it.
fn bracketed_at(bytes: &[u8]) -> Result<(u32, &[u8]), Unread>
    ensures { ReturnsRead (λ x. (x.0, x.1.now)) result (bracketed_at bytes.now) }
{
    let digits = byte_at(b'[', bytes)?;
    let (number, rest) = numeral_at(GREATEST, digits)?;
    if number == 0 {
        return Err(Unread::NotThere);
    }
    let rest = byte_at(b']', rest)?;
    Ok((number as u32, rest))
}

/// The name that bytes begin with, and the bytes after it.
pub(crate) fn name_at(bytes: &[u8]) -> Result<(&[u8], &[u8]), Unread>
    ensures { ReturnsRead (λ x. (x.0.now, x.1.now)) result (name_at bytes.now) }
{
    let (name, rest) = bytes.split_at(name_length(bytes));
    if is_name(name) {
        Ok((name, rest))
    } else {
        Err(Unread::NotThere)
    }
}

/// The instance that bytes begin with, and the bytes after it.
pub(crate) fn inst_at(bytes: &[u8]) -> Result<(Mention<'_>, &[u8]), Unread>
    ensures { ReturnsRead (λ x. (said x.0, x.1.now)) result (inst_at bytes.now) }
{
    let (name, rest) = name_at(bytes)?;
    let (number, rest) = bracketed_at(rest)?;
    Ok((Mention { name, number }, rest))
}
