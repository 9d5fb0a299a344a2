//! Pieces of which the texts of a row are put together.
ghost use Rattle.std.specs.Prelude.{◌≡◌, ◌∷◌, ◌++◌, ◌+◌, ◌-◌, ℕ, List, IfSome, OnOk};
ghost use Rattle.rn_value.specs.Text.{numeral};
ghost use Rattle.renew_rows.specs.Numbers.{SpellsNumber};
ghost use Rattle.renew_rows.specs.Pieces.{IsWritten, at_sign, line_text, numbered, piece_text, bytes_times};
ghost use Rattle.renew_rows.specs.Spelling.{spelled};

use crate::lines::word_and_rest;
use crate::numbers::number_of;
use crate::saying::Unread;
use crate::spelling::spell;
use rn_items::NoMemory;
use rn_value::write_numeral;
use std::alloc::Global;

/// A line that says a part of a text.
#[derive(Clone, Copy)]
pub(crate) enum Piece<'a> {
    /// The text and a line feed.
    Line(&'a [u8]),

    /// The text alone.
    Text(&'a [u8]),

    /// The text so many times.
    Repeated(u64, &'a [u8]),

    /// So many lines, one for each number from the first on: the text, each `@` in it being the
    /// number.
    Numbered(u64, u64, &'a [u8]),
}

// A number and what stands after the blank behind it.
fn number_and_text(bytes: &[u8]) -> Option<(u64, &[u8])>
    ensures { IfSome result (λ x. (digits : List ℕ) × SpellsNumber digits x.0
        × (bytes.now ≡ digits ++ 32 ∷ x.1.now)) }
{
    let (word, rest) = word_and_rest(bytes);
    match (number_of(word), rest) {
        (Some(number), Some(text)) => Some((number, text)),
        _ => None,
    }
}

// How many numbers there are from one to another.
fn count_from(from: u64, last: u64) -> Option<u64>
    ensures { IfSome result (λ n. n ≡ last + 1 - from) }
{
    if last < from {
        return Some(0);
    }
    (last - from).checked_add(1)
}

fn repeated_of<'a>(line: &[u8], bytes: &'a [u8]) -> Option<Piece<'a>>
    requires { line.now ≡ 42 ∷ bytes.now }
    ensures { IfSome result (λ piece. IsWritten piece line.now) }
{
    let (times, text) = number_and_text(bytes)?;
    Some(Piece::Repeated(times, text))
}

fn numbered_of<'a>(line: &[u8], bytes: &'a [u8]) -> Option<Piece<'a>>
    requires { line.now ≡ 64 ∷ bytes.now }
    ensures { IfSome result (λ piece. IsWritten piece line.now) }
{
    let (from, rest) = number_and_text(bytes)?;
    let (last, text) = number_and_text(rest)?;
    Some(Piece::Numbered(from, count_from(from, last)?, text))
}

/// Whether a line is a piece, by its first byte.
pub(crate) fn is_piece(line: &[u8]) -> bool {
    match line {
        [b'|' | b'+' | b'*' | b'@', ..] => true,
        _ => false,
    }
}

/// The piece that a line is.
pub(crate) fn piece_of(line: &[u8]) -> Option<Piece<'_>>
    ensures { IfSome result (λ piece. IsWritten piece line.now) }
{
    match line {
        [b'|', text @ ..] => Some(Piece::Line(text)),
        [b'+', text @ ..] => Some(Piece::Text(text)),
        [b'*', rest @ ..] => repeated_of(line, rest),
        [b'@', rest @ ..] => numbered_of(line, rest),
        _ => None,
    }
}

// Appends a text and a line feed.
fn put_line(text: &[u8], sign: &[u8], into: &mut Vec<u8>) -> Result<(), NoMemory>
    ensures { OnOk result (into.new.items ≡ into.old.items ++ line_text sign.now text.now) }
{
    spell(text, sign, into)?;
    into.push(b'\n')?;
    Ok(())
}

// Appends bytes so many times, one after another.
fn put_one_by_one(count: u64, bytes: &[u8], into: &mut Vec<u8>) -> Result<(), NoMemory>
    ensures { OnOk result (into.new.items ≡ into.old.items ++ bytes_times count bytes.now) }
{
    for _i in 0..count {
        into.extend_from_slice(bytes)?;
    }
    Ok(())
}

/// How often bytes stand in a block.
const BLOCK: u64 = 64;

// Appends bytes so many times, by blocks, which takes less time for few bytes.
fn put_times(alloc: Global, count: u64, bytes: &[u8], into: &mut Vec<u8>) -> Result<(), NoMemory>
    ensures { OnOk result (into.new.items ≡ into.old.items ++ bytes_times count bytes.now) }
{
    let mut block = Vec::new(alloc);
    put_one_by_one(BLOCK, bytes, &mut block)?;
    put_one_by_one(count / BLOCK, &block, into)?;
    put_one_by_one(count % BLOCK, bytes, into)?;
    Ok(())
}

// Appends what a text spells so many times.
fn put_text_times(
    alloc: Global,
    count: u64,
    text: &[u8],
    into: &mut Vec<u8>,
) -> Result<(), NoMemory>
    ensures { OnOk result (into.new.items
        ≡ into.old.items ++ bytes_times count (spelled at_sign text.now)) }
{
    let mut bytes = Vec::new(alloc);
    spell(text, b"@", &mut bytes)?;
    put_times(alloc, count, &bytes, into)
}

// Appends the line of a number.
fn put_line_of(alloc: Global, number: u64, text: &[u8], into: &mut Vec<u8>) -> Result<(), NoMemory>
    ensures { OnOk result (into.new.items
        ≡ into.old.items ++ line_text (numeral number) text.now) }
{
    let mut digits = Vec::new(alloc);
    write_numeral(alloc, number, &mut digits)?;
    put_line(text, &digits, into)
}

// Appends so many lines, one for each number from the first on.
fn put_numbered(
    alloc: Global,
    from: u64,
    count: u64,
    text: &[u8],
    into: &mut Vec<u8>,
) -> Result<(), Unread>
    ensures { OnOk result (into.new.items ≡ into.old.items ++ numbered from text.now count) }
{
    for i in 0..count {
        let Some(number) = from.checked_add(i) else {
            return Err(Unread::Line);
        };
        put_line_of(alloc, number, text, into)?;
    }
    Ok(())
}

/// Appends what a piece says.
pub(crate) fn put_piece(alloc: Global, piece: &Piece<'_>, into: &mut Vec<u8>) -> Result<(), Unread>
    ensures { OnOk result (into.new.items ≡ into.old.items ++ piece_text piece.now) }
{
    match piece {
        Piece::Line(text) => Ok(put_line(text, b"@", into)?),
        Piece::Text(text) => Ok(spell(text, b"@", into)?),
        Piece::Repeated(count, text) => Ok(put_text_times(alloc, *count, text, into)?),
        Piece::Numbered(from, count, text) => put_numbered(alloc, *from, *count, text, into),
    }
}
