//! Texts in quotes.
ghost use Rattle.std.specs.Prelude.{◌≡◌, ◌∷◌, true, false, IsTrue, IfOk};
ghost use Rattle.std.specs.Prelude.{length, nat_eq, ◌≤◌};
ghost use Rattle.rn_notation.specs.Bytes.{quote};
ghost use Rattle.rn_value.specs.Words.{begins_with};
ghost use Rattle.rn_notation.specs.Texts.{escaped_byte, is_closed};
ghost use Rattle.rn_notation.specs.link.Scanning.{IsFirstPiece};
ghost use Rattle.rn_notation.specs.link.Scanning.{GoesOnWith, fault_in_text};

use crate::chars::{first_char, plain_run};
use crate::piece::Piece;
use crate::token::{Cause, TokenKind};
use rn_value::{NoMemory, Str};
use std::alloc::Global;

/// What stands at an offset inside a text.
#[derive(Clone, Copy)]
pub(crate) enum Inside<'a> {
    /// A part, by the character that it stands for, and the bytes after it.
    Part(char, &'a [u8]),

    /// The closing quote.
    Quote,

    /// The end of the line or of the source, or a backslash there: no quote closes the text.
    Open,

    /// A backslash that is no escape.
    NoEscape,

    /// No character.
    Broken,
}

fn escaped_char(byte: u8) -> Option<char>
    ensures { result ≡ escaped_byte byte }
{
    match byte {
        b'"' => Some('"'),
        b'\\' => Some('\\'),
        b'n' => Some('\n'),
        b't' => Some('\t'),
        _ => None,
    }
}

fn look_inside(text: &[u8]) -> Inside<'_>
    ensures { GoesOnWith text.now result }
{
    let Some((first, others)) = text.split_first() else {
        return Inside::Open;
    };
    match *first {
        b'"' => Inside::Quote,
        b'\n' => Inside::Open,
        b'\\' => {
            let Some((byte, rest)) = others.split_first() else {
                return Inside::Open;
            };
            match escaped_char(*byte) {
                Some(c) => Inside::Part(c, rest),
                None => Inside::NoEscape,
            }
        }
        _ => match first_char(text) {
            Some((c, rest)) => Inside::Part(c, rest),
            None => Inside::Broken,
        },
    }
}

/// Whether a quote comes before the line's end, a backslash and the byte after it being a pair.
fn is_closed(text: &[u8]) -> bool
    ensures { result ≡ is_closed text.now }
{
    let mut rest = text;
    while let Some((first, others)) = rest.split_first() {
        match *first {
            b'"' => return true,
            b'\n' => return false,
            b'\\' => match others.split_first() {
                Some((_, after)) => rest = after,
                None => return false,
            },
            _ => rest = others,
        }
    }
    false
}

/// A fault inside a text that begins at the start of the source, and that goes on with this rest.
/// It counts only where the text is closed.
fn faulty_text(source: &[u8], cause: Cause, rest: &[u8]) -> Piece
    requires { length rest.now ≤ length source.now }
    ensures { result ≡ fault_in_text source.now cause rest.now }
{
    if is_closed(rest) {
        Piece::Fault(cause, source.len() - rest.len())
    } else {
        Piece::Fault(Cause::P7, 0)
    }
}

/// The text at the start of a source that begins with a quote.
pub(crate) fn text_piece(alloc: Global, source: &[u8]) -> Result<Piece, NoMemory>
    requires { IsTrue (begins_with (nat_eq quote) source.now) }
    ensures { IfOk result (λ piece. IsFirstPiece source.now piece) }
{
    let mut text = String::new(alloc);
    let (_, inside) = source.split_at(1);
    let mut rest = inside;
    while !rest.is_empty() {
        let (run, after) = plain_run(rest);
        text.push_str(run)?;
        match look_inside(after) {
            Inside::Part(c, more) => {
                text.push(c)?;
                rest = more;
            }
            Inside::Quote => {
                let length = source.len() - after.len() + 1;
                return Ok(Piece::Token(TokenKind::Text(Str::from_string(text)), length));
            }
            Inside::Open => return Ok(Piece::Fault(Cause::P7, 0)),
            Inside::NoEscape => return Ok(faulty_text(source, Cause::P1, after)),
            Inside::Broken => return Ok(faulty_text(source, Cause::P4, after)),
        }
    }
    Ok(Piece::Fault(Cause::P7, 0))
}
