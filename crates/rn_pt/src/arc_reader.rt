//! Reading arcs, and numbers up to a semicolon.
ghost use Rattle.std.specs.Prelude.{◌≡◌, ◌≢◌, ◌+◌, ◌≤◌, length};
ghost use Rattle.rn_notation.specs.declared.sign.TheConstants as sign;
ghost use Rattle.rn_reading.specs.link.Stages.{ReadsUncounted, MovesOn};
ghost use Rattle.rn_pt.specs.Grammar.{NumberUpTo, WeightUpTo, IsPtArc, ArcsUpTo, inhibits};

use crate::plain::{PtArc, PtArcs};
use crate::words::{expect_arc_word, past_arc_word};
use rn_items::Items;
use rn_model::ArcKind;
use rn_notation::{Tokens, sign};
use rn_reading::{Numeral, ReadFault, expect_name, expect_number, expect_sign, past_sign};
use std::alloc::Global;

/// A number after this sign, or none, up to and past the semicolon.
pub(crate) fn number_up_to(
    tokens: &Tokens,
    at: usize,
    opens: u32,
) -> Result<(Option<Numeral>, usize), ReadFault>
    requires inside { at ≤ length tokens.now }
    requires apart { opens ≢ sign.SEMICOLON }
    ensures moved { MovesOn tokens.now (at + 1) result }
    ensures reads { ReadsUncounted (NumberUpTo opens) tokens.now at result }
{
    if let Some((_, start)) = past_sign(tokens, at, opens) {
        let (number, after) = expect_number(tokens, start)?;
        let (_, end) = expect_sign(tokens, after, sign::SEMICOLON)?;
        return Ok((Some(number), end));
    }
    let (_, end) = expect_sign(tokens, at, sign::SEMICOLON)?;
    Ok((None, end))
}

/// The end of an arc: its weight or none, up to and past the semicolon. An inhibitor arc has none.
fn weight_up_to(
    tokens: &Tokens,
    at: usize,
    inhibits: bool,
) -> Result<(Option<Numeral>, usize), ReadFault>
    requires inside { at ≤ length tokens.now }
    ensures moved { MovesOn tokens.now (at + 1) result }
    ensures reads { ReadsUncounted (WeightUpTo inhibits) tokens.now at result }
{
    if inhibits {
        let (_, end) = expect_sign(tokens, at, sign::SEMICOLON)?;
        return Ok((None, end));
    }
    number_up_to(tokens, at, sign::STAR)
}

fn inhibits(kind: ArcKind) -> bool
    ensures { result ≡ inhibits kind }
{
    matches!(kind, ArcKind::Inhibit)
}

/// `in p * 2;`
fn arc(alloc: Global, tokens: &Tokens, at: usize) -> Result<(PtArc, usize), ReadFault>
    requires { at ≤ length tokens.now }
    ensures moved { MovesOn tokens.now (at + 1) result }
    ensures reads { ReadsUncounted IsPtArc tokens.now at result }
{
    let (word, after_word) = expect_arc_word(tokens, at)?;
    let (place, after_place) = expect_name(alloc, tokens, after_word)?;
    let (weight, end) = weight_up_to(tokens, after_place, inhibits(word.kind))?;
    let arc = PtArc {
        word,
        place,
        weight,
    };
    Ok((arc, end))
}

/// Arcs, up to and past the closing brace.
pub(crate) fn arcs_up_to(
    alloc: Global,
    tokens: &Tokens,
    at: usize,
) -> Result<(PtArcs, usize), ReadFault>
    requires { at ≤ length tokens.now }
    ensures moved { MovesOn tokens.now (at + 1) result }
    ensures reads { ReadsUncounted ArcsUpTo tokens.now at result }
{
    let mut all = Vec::new(alloc);
    let mut now = at;
    while let Some(_) = past_arc_word(tokens, now) {
        let (more, after) = arc(alloc, tokens, now)?;
        all.push(more)?;
        now = after;
    }
    let (_, end) = expect_sign(tokens, now, sign::RIGHT_BRACE)?;
    Ok((Items::from_vec(all), end))
}
