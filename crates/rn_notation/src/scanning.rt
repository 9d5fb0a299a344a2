//! The scanner: which piece stands first in a text.
ghost use Rattle.std.specs.Prelude.{◌≡◌, ◌<◌, IfOk, length, false};
ghost use Rattle.rn_value.specs.Words.{begins_with};
ghost use Rattle.rn_notation.specs.Words.{is_blank};
ghost use Rattle.rn_notation.specs.Faults.{begins_plainly};
ghost use Rattle.rn_notation.specs.link.Scanning.{IsFirstPiece};

use crate::chars::first_char;
use crate::comments::{comment_piece, opens_comment};
use crate::numbers::number_piece;
use crate::piece::Piece;
use crate::texts::text_piece;
use crate::token::{Cause, TokenKind};
use crate::words::{sign_at, word_piece};
use rn_value::{NoMemory, is_digit, is_letter};
use std::alloc::Global;

/// What stands at the start of a text that begins with no blank, letter, digit or quote.
#[tactic(auto, using(crate::proofs::TextLemmas::stray_rules))]
fn other_piece(text: &[u8]) -> Piece
    requires some { 0 < length text.now }
    requires other { begins_plainly text.now ≡ false }
    ensures { IsFirstPiece text.now result }
{
    if opens_comment(text) {
        return comment_piece(text);
    }
    match sign_at(text) {
        Some((index, length)) => Piece::Token(TokenKind::Sign(index), length),
        None => match first_char(text) {
            Some(_) => Piece::Fault(Cause::P1, 0),
            None => Piece::Fault(Cause::P4, 0),
        },
    }
}

/// What stands at the start of a text that begins with no blank.
pub(crate) fn first_piece(alloc: Global, text: &[u8]) -> Result<Piece, NoMemory>
    requires some { 0 < length text.now }
    requires solid { begins_with is_blank text.now ≡ false }
    ensures { IfOk result (λ piece. IsFirstPiece text.now piece) }
{
    let first = text[0];
    if is_letter(first) {
        word_piece(alloc, text)
    } else if is_digit(first) {
        Ok(number_piece(text))
    } else if first == b'"' {
        text_piece(alloc, text)
    } else {
        Ok(other_piece(text))
    }
}
