//! Tokens, and the faults of a text that is none.
use crate::tokens::Tokens;
use rn_value::Str;

/// A spot in a text. Lines and columns count from 1, and a column is a byte.
#[derive(Clone, Copy, Debug, PartialEq, Eq)]
pub struct Spot {
    pub line: u32,
    pub column: u32,
}

/// What a token stands for.
#[derive(Debug, Drop, PartialEq, Eq)]
pub enum TokenKind {
    Name(Str),

    /// The reserved word with this number: the constants of `word`, such as `word::NET`.
    Word(u32),

    Number(i64),

    /// The characters of a text, with its escapes resolved.
    Text(Str),

    /// The sign with this number: the constants of `sign`, such as `sign::SEMICOLON`.
    Sign(u32),
}

/// A token, which is the bytes of the source from `start` up to `end`. Contracts see `Tokens` as a
/// list of these.
#[derive(Debug, Drop, PartialEq, Eq)]
pub struct Token {
    pub kind: TokenKind,
    pub start: usize,
    pub end: usize,
    pub spot: Spot,
}

/// A token of `Tokens`, which lend its kind.
#[derive(Clone, Copy, Debug)]
pub struct TokenRef<'a> {
    pub kind: &'a TokenKind,
    pub start: usize,
    pub end: usize,
    pub spot: Spot,
}

/// The first fault of a text that isn't made of tokens.
#[derive(Clone, Copy, Debug, PartialEq, Eq)]
pub enum LexFault {
    /// A character that begins no token, or a backslash in a closed text that is no escape.
    P1(Spot),

    /// The first digit of a number above 9223372036854775807.
    P3(Spot),

    /// A byte from which on the text is no UTF-8.
    P4(Spot),

    /// The quote of a text that isn't closed on its line.
    P7(Spot),
}

/// A fault without its spot.
#[derive(Clone, Copy, Debug)]
pub(crate) enum Cause {
    P1,
    P3,
    P4,
    P7,
}

/// The tokens before the first fault, that fault or none, and the spot after the last byte.
#[derive(Debug, Drop)]
pub struct Lexed {
    pub tokens: Tokens,
    pub fault: Option<LexFault>,
    pub end: Spot,
}
