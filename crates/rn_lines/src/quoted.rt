//! Texts in quotes.
ghost use Rattle.std.specs.Prelude.{◌≡◌};
ghost use Rattle.rn_lines.specs.Reading.{ReturnsRead, is_plain, meaning, inside_at, text_at};

use crate::unread::Unread;
use rn_value::Str;
use std::alloc::Global;

/// The byte that a byte stands for behind a backslash.
fn meaning(byte: u8) -> Option<u8>
    ensures { result ≡ meaning byte }
{
    match byte {
        b'"' => Some(b'"'),
        b'\\' => Some(b'\\'),
        b'n' => Some(b'\n'),
        b't' => Some(b'\t'),
        _ => None,
    }
}

/// Whether a byte stands for itself, if it is no quote and no backslash.
fn is_plain(byte: u8) -> bool
    ensures { result ≡ is_plain byte }
{
    byte != b'\n' && byte != b'\t'
}

/// The bytes that what stands before a quote means, and the bytes after that quote.
fn inside_at(alloc: Global, bytes: &[u8]) -> Result<(Vec<u8>, &[u8]), Unread>
    ensures { ReturnsRead (λ x. (x.0.items, x.1.now)) result (inside_at bytes.now) }
{
    let mut meant = Vec::new(alloc);
    let mut rest = bytes;
    while let Some((byte, others)) = rest.split_first() {
        if *byte == b'"' {
            return Ok((meant, others));
        }
        if *byte == b'\\' {
            let Some((escaped, after)) = others.split_first() else {
                return Err(Unread::NotThere);
            };
            let Some(byte) = meaning(*escaped) else {
                return Err(Unread::NotThere);
            };
            meant.push(byte)?;
            rest = after;
        } else {
            if !is_plain(*byte) {
                return Err(Unread::NotThere);
            }
            meant.push(*byte)?;
            rest = others;
        }
    }
    Err(Unread::NotThere)
}

/// The text whose opening quote is read, and the bytes after its closing quote.
pub(crate) fn text_at(alloc: Global, bytes: &[u8]) -> Result<(Str, &[u8]), Unread>
    ensures { ReturnsRead (λ x. (x.0, x.1.now)) result (text_at bytes.now) }
{
    let (meant, rest) = inside_at(alloc, bytes)?;
    match str::from_utf8(meant.as_slice()) {
        Ok(text) => Ok((Str::from_string(String::from_str(alloc, text)?), rest)),
        Err(_) => Err(Unread::NotThere),
    }
}
