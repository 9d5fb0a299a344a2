//! Steps from token to token, with levels and operators counted.
ghost use Rattle.std.specs.Prelude.{◌≡◌, ◌+◌, ◌<◌, ◌≤◌, ◌⊎◌, length, MatchOption, MatchResult};
ghost use Rattle.rn_notation.specs.declared.sign.TheConstants as sign;
ghost use Rattle.rn_inscript.specs.link.Stages.{IsNextSign, IsNotNextSign, past, past_operator};
ghost use Rattle.rn_inscript.specs.link.Stages.{IsBadOpening};

use rn_notation::{TokenKind, Tokens, sign};
use rn_reading::{ReadFault, next};

/// How many operators a phrase may have.
const MOST_OPERATORS: u32 = 256;

/// How far a reader has come: the index of the next token, and how many operators were taken.
#[derive(Clone, Copy, Debug)]
pub(crate) struct Seen {
    pub at: usize,
    pub operators: u32,
}

/// What was read, and how far the reader has come then.
pub(crate) type Read<T> = Result<(T, Seen), ReadFault>;

impl Seen {
    /// Past a token that is no operator.
    pub(crate) fn past(self, tokens: &Tokens) -> Seen
        requires { self.at < length tokens.now }
        ensures { result ≡ past self }
    {
        // For its clause: there are fewer than 2^64 tokens, so `at + 1` doesn't overflow.
        let _count = tokens.len();
        Seen {
            at: self.at + 1,
            operators: self.operators,
        }
    }

    /// Past an operator.
    pub(crate) fn past_operator(self, tokens: &Tokens) -> Result<Seen, ReadFault>
        requires { self.at < length tokens.now }
        ensures { MatchResult result
            (λ seen. (self.operators < MOST_OPERATORS) × (seen ≡ past_operator self))
            (λ fault. (MOST_OPERATORS ≤ self.operators) × (fault ≡ ReadFault.TooFar self.at)) }
    {
        // For its clause: there are fewer than 2^64 tokens, so `at + 1` doesn't overflow.
        let _count = tokens.len();
        if self.operators >= MOST_OPERATORS {
            return Err(ReadFault::TooFar(self.at));
        }
        Ok(Seen {
            at: self.at + 1,
            operators: self.operators + 1,
        })
    }

    /// Past a bracket that opens a level, where so many more may be opened.
    pub(crate) fn past_opening(self, tokens: &Tokens, levels: u32) -> Result<Seen, ReadFault>
        requires { self.at < length tokens.now }
        ensures { MatchResult result
            (λ seen. (0 < levels) × (seen ≡ past self))
            (λ fault. (levels ≡ 0) × (fault ≡ ReadFault.TooFar self.at)) }
    {
        if levels == 0 {
            return Err(ReadFault::TooFar(self.at));
        }
        Ok(self.past(tokens))
    }

    /// Past a unary minus, which is an operator and opens a level.
    pub(crate) fn past_minus(self, tokens: &Tokens, levels: u32) -> Result<Seen, ReadFault>
        requires { self.at < length tokens.now }
        ensures { MatchResult result
            (λ seen. (0 < levels) × (self.operators < MOST_OPERATORS) × (seen ≡ past_operator self))
            (λ fault. ((levels ≡ 0) ⊎ (MOST_OPERATORS ≤ self.operators)) × (fault ≡ ReadFault.TooFar self.at)) }
    {
        if levels == 0 {
            return Err(ReadFault::TooFar(self.at));
        }
        self.past_operator(tokens)
    }
}

/// Past this sign, where it is next.
pub(crate) fn past_sign(tokens: &Tokens, seen: Seen, wanted: u32) -> Option<Seen>
    ensures { MatchOption result
        (IsNotNextSign tokens.now seen.at wanted)
        (λ after. IsNextSign tokens.now seen.at wanted × (after ≡ past seen)) }
{
    match next(tokens, seen.at)?.kind {
        TokenKind::Sign(other) if *other == wanted => Some(seen.past(tokens)),
        _ => None,
    }
}

/// Past this sign, which has to be next.
pub(crate) fn expect_sign(tokens: &Tokens, seen: Seen, wanted: u32) -> Result<Seen, ReadFault>
    ensures { MatchResult result
        (λ after. IsNextSign tokens.now seen.at wanted × (after ≡ past seen))
        (λ fault. IsNotNextSign tokens.now seen.at wanted × (fault ≡ ReadFault.Stopped seen.at)) }
{
    match past_sign(tokens, seen, wanted) {
        Some(after) => Ok(after),
        None => Err(ReadFault::Stopped(seen.at)),
    }
}

/// Past an opening parenthesis, which has to be next, where so many more levels may be opened.
pub(crate) fn expect_opening(tokens: &Tokens, seen: Seen, levels: u32) -> Result<Seen, ReadFault>
    ensures { MatchResult result
        (λ after. IsNextSign tokens.now seen.at sign.LEFT_PAREN × (0 < levels) × (after ≡ past seen))
        (λ fault. IsBadOpening tokens.now seen levels fault) }
{
    let after = expect_sign(tokens, seen, sign::LEFT_PAREN)?;
    if levels == 0 {
        return Err(ReadFault::TooFar(seen.at));
    }
    Ok(after)
}
