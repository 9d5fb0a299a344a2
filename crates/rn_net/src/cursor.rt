//! Steps from token to token.
ghost use Rattle.std.specs.Prelude.{◌≡◌, ◌+◌, ◌<◌, ◌^◌, ◌↔◌, IsTrue};
ghost use Rattle.std.specs.Prelude.{MatchOption, MatchResult, OnSome};
ghost use Rattle.rn_notation.specs.declared.token.TokenKind.TheVariants as Kind;
ghost use Rattle.rn_inscript.specs.link.NextNames.{IsNotNextKind, IsNextName, IsNoName};
ghost use Rattle.rn_net.specs.link.Progress.{HasNext, IsNoNumber, IsNoText};

use rn_inscript::PName;
use rn_notation::{Spot, TokenKind, Tokens};
use rn_reading::{ReadFault, next};
use rn_value::{Str, copy_text};
use std::alloc::Global;

/// How many levels may be open.
pub(crate) const MOST_LEVELS: u32 = 64;

/// The spot of this reserved word, where it is next, and the index past it.
pub(crate) fn past_word(tokens: &Tokens, at: usize, wanted: u32) -> Option<(Spot, usize)>
    ensures { MatchOption result
        (IsNotNextKind tokens.now at (Kind.Word wanted))
        (λ found. HasNext tokens.now at (Kind.Word wanted) found.0 × (found.1 ≡ at + 1)) }
{
    match next(tokens, at) {
        Some(token) => match token.kind {
            TokenKind::Word(other) => {
                if *other == wanted {
                    Some((token.spot, at + 1))
                } else {
                    None
                }
            }
            _ => None,
        },
        None => None,
    }
}

/// The spot of this sign, where it is next, and the index past it.
pub(crate) fn past_sign(tokens: &Tokens, at: usize, wanted: u32) -> Option<(Spot, usize)>
    ensures { MatchOption result
        (IsNotNextKind tokens.now at (Kind.Sign wanted))
        (λ found. HasNext tokens.now at (Kind.Sign wanted) found.0 × (found.1 ≡ at + 1)) }
{
    match next(tokens, at) {
        Some(token) => match token.kind {
            TokenKind::Sign(other) => {
                if *other == wanted {
                    Some((token.spot, at + 1))
                } else {
                    None
                }
            }
            _ => None,
        },
        None => None,
    }
}

/// Past this sign, which has to be next.
pub(crate) fn expect_sign(
    tokens: &Tokens,
    at: usize,
    wanted: u32,
) -> Result<(Spot, usize), ReadFault>
    ensures { MatchResult result
        (λ found. HasNext tokens.now at (Kind.Sign wanted) found.0 × (found.1 ≡ at + 1))
        (λ fault. IsNotNextKind tokens.now at (Kind.Sign wanted) × (fault ≡ ReadFault.Stopped at)) }
{
    match past_sign(tokens, at, wanted) {
        Some(found) => Ok(found),
        None => Err(ReadFault::Stopped(at)),
    }
}

fn is_text(name: &Str, wanted: &str) -> bool
    ensures { IsTrue result ↔ (name.now ≡ wanted.now) }
{
    name.as_str() == wanted
}

/// The spot of this name, where it is next, and the index past it.
pub(crate) fn past_name(tokens: &Tokens, at: usize, wanted: &str) -> Option<(Spot, usize)>
    ensures { MatchOption result
        (IsNotNextKind tokens.now at (Kind.Name wanted.now))
        (λ found. HasNext tokens.now at (Kind.Name wanted.now) found.0 × (found.1 ≡ at + 1)) }
{
    match next(tokens, at) {
        Some(token) => match token.kind {
            TokenKind::Name(name) => {
                if is_text(name, wanted) {
                    Some((token.spot, at + 1))
                } else {
                    None
                }
            }
            _ => None,
        },
        None => None,
    }
}

/// A name, which has to be next, and the index past it.
pub(crate) fn expect_name(
    alloc: Global,
    tokens: &Tokens,
    at: usize,
) -> Result<(PName, usize), ReadFault>
    ensures { MatchResult result
        (λ found. IsNextName tokens.now at found.0 × (found.1 ≡ at + 1))
        (λ fault. IsNoName tokens.now at fault) }
{
    match next(tokens, at) {
        Some(token) => match token.kind {
            TokenKind::Name(name) => {
                let text = copy_text(alloc, name)?;
                Ok((
                    PName {
                        text,
                        spot: token.spot,
                    },
                    at + 1,
                ))
            }
            _ => Err(ReadFault::Stopped(at)),
        },
        None => Err(ReadFault::Stopped(at)),
    }
}

/// The spot of a number, where it is next, the number, and the index past it.
pub(crate) fn past_number(tokens: &Tokens, at: usize) -> Option<(Spot, i64, usize)>
    ensures { MatchOption result
        (IsNoNumber tokens.now at)
        (λ found. HasNext tokens.now at (Kind.Number found.1) found.0 × (found.2 ≡ at + 1)) }
{
    match next(tokens, at) {
        Some(token) => match token.kind {
            TokenKind::Number(number) => Some((token.spot, *number, at + 1)),
            _ => None,
        },
        None => None,
    }
}

/// The spot of a number, which has to be next, the number, and the index past it.
pub(crate) fn expect_number(tokens: &Tokens, at: usize) -> Result<(Spot, i64, usize), ReadFault>
    ensures { MatchResult result
        (λ found. HasNext tokens.now at (Kind.Number found.1) found.0 × (found.2 ≡ at + 1))
        (λ fault. IsNoNumber tokens.now at × (fault ≡ ReadFault.Stopped at)) }
{
    match past_number(tokens, at) {
        Some(found) => Ok(found),
        None => Err(ReadFault::Stopped(at)),
    }
}

/// The spot of a text, where it is next, the text, and the index past it.
pub(crate) fn past_text(tokens: &Tokens, at: usize) -> Option<(Spot, &Str, usize)>
    ensures { MatchOption result
        (IsNoText tokens.now at)
        (λ found. HasNext tokens.now at (Kind.Text found.1.now) found.0 × (found.2 ≡ at + 1)) }
{
    match next(tokens, at) {
        Some(token) => match token.kind {
            TokenKind::Text(text) => Some((token.spot, text, at + 1)),
            _ => None,
        },
        None => None,
    }
}

/// Whether one more level may be opened by the token at an index, where so many more may be.
pub(crate) fn open_level(at: usize, levels: u32) -> Result<u32, ReadFault>
    ensures { MatchResult result
        (λ inside. levels ≡ inside + 1)
        (λ fault. (levels ≡ 0) × (fault ≡ ReadFault.TooFar at)) }
{
    if levels == 0 {
        return Err(ReadFault::TooFar(at));
    }
    Ok(levels - 1)
}
