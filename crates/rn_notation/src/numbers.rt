//! Numbers.
ghost use Rattle.std.specs.Prelude.{IsTrue};
ghost use Rattle.rn_value.specs.Characters.{is_digit};
ghost use Rattle.rn_value.specs.Words.{begins_with};
ghost use Rattle.rn_notation.specs.link.Scanning.{IsFirstPiece};

use crate::piece::Piece;
use crate::token::{Cause, TokenKind};
use rn_value::is_digit;

const GREATEST_NUMBER: u64 = 9223372036854775807;

/// The number at the start of a text that begins with a digit.
pub(crate) fn number_piece(text: &[u8]) -> Piece
    requires { IsTrue (begins_with is_digit text.now) }
    ensures { IsFirstPiece text.now result }
{
    let mut number = 0u64;
    for (i, byte) in text.iter().enumerate() {
        if !is_digit(*byte) {
            return Piece::Token(TokenKind::Number(number as i64), i);
        }
        let units = (*byte - b'0') as u64;
        if (GREATEST_NUMBER - units) / 10 < number {
            return Piece::Fault(Cause::P3, 0);
        }
        number = number * 10 + units;
    }
    Piece::Token(TokenKind::Number(number as i64), text.len())
}
