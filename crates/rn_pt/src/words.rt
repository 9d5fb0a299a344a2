//! Steps past the words of weighted nets.
ghost use Rattle.std.specs.Prelude.{◌≡◌, ◌+◌, MatchOption};
ghost use Rattle.rn_reading.specs.link.Stages.{IsNextOne, IsNotNext, Steps};
ghost use Rattle.rn_pt.specs.Words.{arc_kind, arc_word, pt_word};

use crate::plain::ArcWord;
use rn_model::ArcKind;
use rn_notation::{Spot, TokenKind, Tokens, word};
use rn_reading::{ReadFault, next};

/// The kind of arc that a reserved word begins.
fn arc_kind(number: u32) -> Option<ArcKind>
    ensures { result ≡ arc_kind number }
{
    if number == word::IN {
        return Some(ArcKind::Input);
    }
    if number == word::OUT {
        return Some(ArcKind::Output);
    }
    if number == word::INHIBIT {
        return Some(ArcKind::Inhibit);
    }
    None
}

/// The word that begins an arc, where one is next, and the index past it.
pub(crate) fn past_arc_word(tokens: &Tokens, at: usize) -> Option<(ArcWord, usize)>
    ensures { MatchOption result
        (IsNotNext arc_word tokens.now at)
        (λ found. IsNextOne arc_word tokens.now at found.0 × (found.1 ≡ at + 1)) }
{
    let token = next(tokens, at)?;
    match token.kind {
        TokenKind::Word(number) => match arc_kind(*number) {
            Some(kind) => {
                let spot = token.spot;
                Some((ArcWord { kind, spot }, at + 1))
            }
            None => None,
        },
        _ => None,
    }
}

/// The word that begins an arc, which has to be next, and the index past it.
pub(crate) fn expect_arc_word(tokens: &Tokens, at: usize) -> Result<(ArcWord, usize), ReadFault>
    ensures { Steps arc_word tokens.now at result }
{
    match past_arc_word(tokens, at) {
        Some(found) => Ok(found),
        None => Err(ReadFault::Stopped(at)),
    }
}

/// The spot of the name `pt`, which has to be next, and the index past it.
pub(crate) fn expect_pt(tokens: &Tokens, at: usize) -> Result<(Spot, usize), ReadFault>
    ensures { Steps pt_word tokens.now at result }
{
    match next(tokens, at) {
        Some(token) => match token.kind {
            TokenKind::Name(text) => {
                if text.as_str() == "pt" {
                    Ok((token.spot, at + 1))
                } else {
                    Err(ReadFault::Stopped(at))
                }
            }
            _ => Err(ReadFault::Stopped(at)),
        },
        None => Err(ReadFault::Stopped(at)),
    }
}
