//! Steps from token to token.
ghost use Rattle.std.specs.Prelude.{◌≡◌, ◌+◌, ◌<◌, ◌^◌, MatchOption, OnSome};
ghost use Rattle.rn_notation.specs.StoredTokens.{lent};
ghost use Rattle.rn_reading.specs.Single.{sign, word, name, number};
ghost use Rattle.rn_reading.specs.link.Stages.{IsNext, HasNoNext, IsNextOne, IsNotNext, Steps};

use crate::fault::ReadFault;
use crate::named::{Named, Numeral};
use rn_notation::{Spot, TokenKind, TokenRef, Tokens};
use rn_value::copy_text;
use std::alloc::Global;

/// The token at an index.
pub fn next(tokens: &Tokens, at: usize) -> Option<TokenRef<'_>>
    ensures next { MatchOption result
        (HasNoNext tokens.now at)
        (λ t. IsNext tokens.now at (lent t)) }
    ensures fits { OnSome result (at + 1 < 2 ^ 64) }
{
    // For its clause: there are fewer than 2^64 tokens, so `at + 1` fits.
    let _count = tokens.len();
    tokens.get(at)
}

/// The spot of this sign, where it is next, and the index past it.
pub fn past_sign(tokens: &Tokens, at: usize, wanted: u32) -> Option<(Spot, usize)>
    ensures { MatchOption result
        (IsNotNext (sign wanted) tokens.now at)
        (λ found. IsNextOne (sign wanted) tokens.now at found.0 × (found.1 ≡ at + 1)) }
{
    let token = next(tokens, at)?;
    match token.kind {
        TokenKind::Sign(other) => {
            if *other == wanted {
                Some((token.spot, at + 1))
            } else {
                None
            }
        }
        _ => None,
    }
}

/// The spot of this reserved word, where it is next, and the index past it.
pub fn past_word(tokens: &Tokens, at: usize, wanted: u32) -> Option<(Spot, usize)>
    ensures { MatchOption result
        (IsNotNext (word wanted) tokens.now at)
        (λ found. IsNextOne (word wanted) tokens.now at found.0 × (found.1 ≡ at + 1)) }
{
    let token = next(tokens, at)?;
    match token.kind {
        TokenKind::Word(other) => {
            if *other == wanted {
                Some((token.spot, at + 1))
            } else {
                None
            }
        }
        _ => None,
    }
}

/// The spot of this sign, which has to be next, and the index past it.
pub fn expect_sign(tokens: &Tokens, at: usize, wanted: u32) -> Result<(Spot, usize), ReadFault>
    ensures { Steps (sign wanted) tokens.now at result }
{
    match past_sign(tokens, at, wanted) {
        Some(found) => Ok(found),
        None => Err(ReadFault::Stopped(at)),
    }
}

/// The spot of this reserved word, which has to be next, and the index past it.
pub fn expect_word(tokens: &Tokens, at: usize, wanted: u32) -> Result<(Spot, usize), ReadFault>
    ensures { Steps (word wanted) tokens.now at result }
{
    match past_word(tokens, at, wanted) {
        Some(found) => Ok(found),
        None => Err(ReadFault::Stopped(at)),
    }
}

/// A name, which has to be next, and the index past it.
pub fn expect_name(alloc: Global, tokens: &Tokens, at: usize) -> Result<(Named, usize), ReadFault>
    ensures { Steps name tokens.now at result }
{
    match next(tokens, at) {
        Some(token) => match token.kind {
            TokenKind::Name(text) => {
                let text = copy_text(alloc, text)?;
                let spot = token.spot;
                Ok((Named { text, spot }, at + 1))
            }
            _ => Err(ReadFault::Stopped(at)),
        },
        None => Err(ReadFault::Stopped(at)),
    }
}

/// A number, which has to be next, and the index past it.
pub fn expect_number(tokens: &Tokens, at: usize) -> Result<(Numeral, usize), ReadFault>
    ensures { Steps number tokens.now at result }
{
    match next(tokens, at) {
        Some(token) => match token.kind {
            TokenKind::Number(value) => {
                let (value, spot) = (*value, token.spot);
                Ok((Numeral { value, spot }, at + 1))
            }
            _ => Err(ReadFault::Stopped(at)),
        },
        None => Err(ReadFault::Stopped(at)),
    }
}
