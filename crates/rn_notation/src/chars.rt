//! Characters at the start of bytes.
ghost use Rattle.std.specs.Prelude.{◌≡◌, ◌≤◌, ◌++◌, ℕ, List, length, IfOk, IfSome, IfNone};
ghost use Rattle.std.specs.Prelude.{IsUtf8};
ghost use Rattle.std.specs.Prelude.{encode_utf8};
ghost use Rattle.std.specs.Char.{IsScalar};
ghost use Rattle.std.specs.Str.{StartsWithNoChar};
ghost use Rattle.rn_notation.specs.link.Scanning.{IsRun};

use memchr::memchr3;
use rn_value::{NoMemory, Str};
use std::alloc::Global;
use std::str;

/// The longest prefix of at most so many bytes that is UTF-8. Where four may be taken, it is empty
/// only where no character stands at the start.
fn valid_prefix(text: &[u8], most: usize) -> &str
    ensures prefix { (rest : List ℕ) × (text.now ≡ result.now ++ rest) }
    ensures within { length result.now ≤ most }
    ensures none { 4 ≤ most → length result.now ≡ 0 → StartsWithNoChar text.now }
{
    let length = text.len().min(most);
    let (prefix, _) = text.split_at(length);
    match str::from_utf8(prefix) {
        Ok(valid) => valid,
        Err(fault) => {
            let (valid, _) = prefix.split_at(fault.valid_up_to());
            match str::from_utf8(valid) {
                Ok(valid) => valid,
                Err(_) => unreachable!(),
            }
        }
    }
}

/// The character at the start of a text, and the bytes after it.
pub(crate) fn first_char(text: &[u8]) -> Option<(char, &[u8])>
    ensures scalar { IfSome result (λ found. IsScalar found.0) }
    ensures found { IfSome result (λ found. text.now ≡ encode_utf8 found.0 ++ found.1.now) }
    ensures none { IfNone result (StartsWithNoChar text.now) }
{
    // An ASCII byte, as almost each one is, needs no decoding.
    if let [byte @ ..=0x7F, rest @ ..] = text {
        return Some((*byte as char, rest));
    }
    let first = valid_prefix(text, 4).chars().next()?;
    let (_, rest) = text.split_at(first.len_utf8());
    Some((first, rest))
}

/// The characters at the start of a text before the first quote, backslash or line feed, and the
/// bytes after them.
pub(crate) fn plain_run(text: &[u8]) -> (&str, &[u8])
    ensures { IsRun text.now result.0.now result.1.now }
{
    let most = memchr3(b'"', b'\\', b'\n', text).unwrap_or(text.len());
    let run = valid_prefix(text, most);
    let (_, rest) = text.split_at(run.len());
    (run, rest)
}

/// An ASCII text of its own.
pub(crate) fn ascii_text(alloc: Global, bytes: &[u8]) -> Result<Str, NoMemory>
    requires { IsUtf8 bytes.now }
    ensures { IfOk result (λ text. text ≡ bytes.now) }
{
    match str::from_utf8(bytes) {
        Ok(text) => Ok(Str::from_string(String::from_str(alloc, text)?)),
        Err(_) => unreachable!(),
    }
}
