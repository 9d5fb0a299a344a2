//! Blanks, words and signs.
ghost use Rattle.std.specs.Prelude.{◌≡◌, ◌<◌, ◌∷◌, [], length};
ghost use Rattle.std.specs.Prelude.{IsTrue, IfOk, IfSome, IfNone, false};
ghost use Rattle.std.specs.List.{prefix_len};
ghost use Rattle.rn_value.specs.Characters.{is_letter, is_name_byte};
ghost use Rattle.rn_value.specs.Words.{begins_with, index_of, reserved_words};
ghost use Rattle.rn_notation.specs.Words.{is_blank, signs, begins_with_sign, opens_comment};
ghost use Rattle.rn_notation.specs.link.Scanning.{IsFirstPiece, Cuts, long_sign, ends_in_letter};
ghost use Rattle.rn_notation.specs.link.Scanning.{token as a_token};
ghost use Rattle.rn_notation.specs.declared.token.TokenKind.TheVariants.{Sign as SignToken};

use crate::chars::ascii_text;
use crate::piece::Piece;
use crate::sign;
use crate::token::TokenKind;
use rn_value::{NoMemory, is_letter, is_name_byte, reserved_word};
use std::alloc::Global;

pub(crate) fn is_blank(byte: u8) -> bool
    ensures { result ≡ is_blank byte }
{
    matches!(byte, b' ' | b'\t' | b'\r' | b'\n')
}

/// How many letters, digits and `_` a text begins with.
fn word_length(text: &[u8]) -> usize
    ensures { result ≡ prefix_len is_name_byte text.now }
{
    for (i, byte) in text.iter().enumerate() {
        if !is_name_byte(*byte) {
            return i;
        }
    }
    text.len()
}

/// The sign that a byte is by itself, found without a look through the list.
#[tactic(auto, unfolding(crate::specs::Words::signs))]
fn lone_sign(byte: u8) -> Option<u32>
    ensures { result ≡ index_of signs (byte ∷ []) }
{
    match byte {
        b'{' => Some(sign::LEFT_BRACE),
        b'}' => Some(sign::RIGHT_BRACE),
        b'[' => Some(sign::LEFT_BRACKET),
        b']' => Some(sign::RIGHT_BRACKET),
        b'(' => Some(sign::LEFT_PAREN),
        b')' => Some(sign::RIGHT_PAREN),
        b',' => Some(sign::COMMA),
        b';' => Some(sign::SEMICOLON),
        b':' => Some(sign::COLON),
        b'=' => Some(sign::EQUALS),
        b'<' => Some(sign::LESS),
        b'>' => Some(sign::GREATER),
        b'+' => Some(sign::PLUS),
        b'-' => Some(sign::MINUS),
        b'*' => Some(sign::STAR),
        b'/' => Some(sign::SLASH),
        b'%' => Some(sign::PERCENT),
        b'!' => Some(sign::NOT),
        _ => None,
    }
}

/// The sign that a byte and the first of others are.
#[tactic(auto, unfolding(crate::specs::Words::signs))]
fn long_sign(first: u8, others: &[u8]) -> Option<u32>
    ensures { result ≡ long_sign first others.now }
{
    match (first, others) {
        (b'=', [b'=', ..]) => Some(sign::SAME),
        (b'!', [b'=', ..]) => Some(sign::DIFFERS),
        (b'<', [b'=', ..]) => Some(sign::AT_MOST),
        (b'>', [b'=', ..]) => Some(sign::AT_LEAST),
        (b'&', [b'&', ..]) => Some(sign::AND),
        (b'|', [b'|', ..]) => Some(sign::OR),
        _ => None,
    }
}

/// The number of a reserved word. Many names end in a digit, and aren't looked up.
#[tactic(auto, using(crate::proofs::WordLemmas::isnt_reserved))]
fn reserved_at(word: &[u8]) -> Option<u32>
    ensures { result ≡ index_of reserved_words word.now }
{
    match word.last() {
        Some(byte) if is_letter(*byte) => reserved_word(word),
        _ => None,
    }
}

/// The name or reserved word at the start of a text that begins with a letter.
pub(crate) fn word_piece(alloc: Global, text: &[u8]) -> Result<Piece, NoMemory>
    requires { IsTrue (begins_with is_letter text.now) }
    ensures { IfOk result (λ piece. IsFirstPiece text.now piece) }
{
    let length = word_length(text);
    let (word, _) = text.split_at(length);
    if let Some(index) = reserved_at(word) {
        return Ok(Piece::Token(TokenKind::Word(index), length));
    }
    Ok(Piece::Token(TokenKind::Name(ascii_text(alloc, word)?), length))
}

/// The sign at the start of a text, and how many bytes it takes.
#[tactic(auto, using(crate::proofs::WordLemmas::sign_rules))]
pub(crate) fn sign_at(text: &[u8]) -> Option<(u32, usize)>
    requires some { 0 < length text.now }
    requires code { opens_comment text.now ≡ false }
    ensures found { IfSome result (λ found. Cuts text.now found.1 (a_token (SignToken found.0))) }
    ensures none { IfNone result (begins_with_sign text.now ≡ false) }
{
    let (first, others) = text.split_first()?;
    if let Some(index) = long_sign(*first, others) {
        return Some((index, 2));
    }
    match lone_sign(*first) {
        Some(index) => Some((index, 1)),
        None => None,
    }
}
