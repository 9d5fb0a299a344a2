//! Reading constants. A call goes deeper only where a bracket opens a level.
ghost use Rattle.std.specs.Prelude.{◌≡◌, ℕ, ◌+◌, ◌≤◌, ◌≤ℤ◌, length, neg_ℤ, pos};
ghost use Rattle.rn_notation.specs.declared.token.TokenKind.TheVariants as Kind;
ghost use Rattle.rn_model.specs.Limits.{most_nested};
ghost use Rattle.rn_reading.specs.link.Stages.{MovesOn};
ghost use Rattle.rn_inscript.specs.Signs.{open_brace, open_bracket, minus};
ghost use Rattle.rn_net.specs.Constants.{IsConstant, AreItems};
ghost use Rattle.rn_net.specs.Levels.{Region, after};
ghost use Rattle.rn_net.specs.Levels.Region.{declaring};
ghost use Rattle.rn_net.specs.link.Lists.{AreConstantsUpTo};
ghost use Rattle.rn_net.specs.link.Progress.{Reads, HasNext, IsEnd, HaveNaturals};

use crate::constants::{PConst, PConstForm, PConsts};
use crate::cursor::{expect_sign, open_level, past_number, past_sign, past_text};
use rn_items::Items;
use rn_notation::{Spot, Tokens, sign};
use rn_reading::ReadFault;
use rn_value::copy_text;
use std::alloc::Global;

/// The constant that begins at an index, and the index after it. So many more levels may be opened.
#[cycle(constant)]
pub(crate) fn constant(
    alloc: Global,
    tokens: &Tokens,
    at: usize,
    levels: u32,
) -> Result<(PConst, usize), ReadFault>
    requires inside { at ≤ length tokens.now }
    requires naturals { HaveNaturals tokens.now }
    ensures moved { MovesOn tokens.now at result }
    ensures reads { (depth : ℕ) → levels + depth ≡ most_nested →
        Reads IsConstant tokens.now at (declaring depth) (declaring depth) result }
{
    if let Some((spot, number, end)) = past_number(tokens, at) {
        let form = PConstForm::Int(number);
        return Ok((PConst { form, spot }, end));
    }
    if let Some((spot, text, end)) = past_text(tokens, at) {
        let form = PConstForm::Text(copy_text(alloc, text)?);
        return Ok((PConst { form, spot }, end));
    }
    if let Some((spot, after)) = past_sign(tokens, at, sign::MINUS) {
        return negative(tokens, at, spot, after);
    }
    if let Some((spot, inside)) = past_sign(tokens, at, sign::LEFT_BRACKET) {
        return tuple(alloc, tokens, at, levels, spot, inside);
    }
    if let Some((spot, inside)) = past_sign(tokens, at, sign::LEFT_BRACE) {
        return list(alloc, tokens, at, levels, spot, inside);
    }
    Err(ReadFault::Stopped(at))
}

fn negated(number: i64) -> i64
    requires { pos 0 ≤ℤ number }
    ensures { result ≡ neg_ℤ number }
{
    -number
}

/// `-1`, of which the minus is next. It opens no level.
fn negative(
    tokens: &Tokens,
    at: usize,
    spot: Spot,
    after: usize,
) -> Result<(PConst, usize), ReadFault>
    requires naturals { HaveNaturals tokens.now }
    requires next { HasNext tokens.now at minus spot }
    requires after { after ≡ at + 1 }
    ensures moved { MovesOn tokens.now at result }
    ensures reads { (depth : ℕ) →
        Reads IsConstant tokens.now at (declaring depth) (declaring depth) result }
{
    match past_number(tokens, after) {
        Some((_, number, end)) => {
            let form = PConstForm::Int(negated(number));
            Ok((PConst { form, spot }, end))
        }
        None => Err(ReadFault::Stopped(after)),
    }
}

/// `[c1,c2]`, of which the bracket is next.
#[cycle(constant)]
fn tuple(
    alloc: Global,
    tokens: &Tokens,
    at: usize,
    levels: u32,
    spot: Spot,
    inside: usize,
) -> Result<(PConst, usize), ReadFault>
    requires naturals { HaveNaturals tokens.now }
    requires next { HasNext tokens.now at open_bracket spot }
    requires inside { inside ≡ at + 1 }
    ensures moved { MovesOn tokens.now at result }
    ensures reads { (depth : ℕ) → levels + depth ≡ most_nested →
        Reads IsConstant tokens.now at (declaring depth) (declaring depth) result }
{
    let levels_inside = open_level(at, levels)?;
    let (parts, end) = constants_listed(alloc, tokens, inside, levels_inside, sign::RIGHT_BRACKET)?;
    let form = PConstForm::Tuple(parts);
    Ok((PConst { form, spot }, end))
}

/// `{c1,c2}`, of which the brace is next.
#[cycle(constant)]
fn list(
    alloc: Global,
    tokens: &Tokens,
    at: usize,
    levels: u32,
    spot: Spot,
    inside: usize,
) -> Result<(PConst, usize), ReadFault>
    requires naturals { HaveNaturals tokens.now }
    requires next { HasNext tokens.now at open_brace spot }
    requires inside { inside ≡ at + 1 }
    ensures moved { MovesOn tokens.now at result }
    ensures reads { (depth : ℕ) → levels + depth ≡ most_nested →
        Reads IsConstant tokens.now at (declaring depth) (declaring depth) result }
{
    let levels_inside = open_level(at, levels)?;
    let (parts, end) = constants_listed(alloc, tokens, inside, levels_inside, sign::RIGHT_BRACE)?;
    let form = PConstForm::List(parts);
    Ok((PConst { form, spot }, end))
}

/// Constants, or none, up to and past the closing bracket.
#[cycle(constant)]
fn constants_listed(
    alloc: Global,
    tokens: &Tokens,
    at: usize,
    levels: u32,
    close: u32,
) -> Result<(PConsts, usize), ReadFault>
    requires inside { at ≤ length tokens.now }
    requires naturals { HaveNaturals tokens.now }
    requires close { IsEnd close }
    ensures moved { MovesOn tokens.now at result }
    ensures reads { (depth : ℕ) → levels + depth ≡ most_nested →
        (last : Region) → after (declaring depth) (Kind.Sign close) ≡ last →
        Reads (AreItems (Kind.Sign close)) tokens.now at (declaring depth) last result }
{
    if let Some((_, end)) = past_sign(tokens, at, close) {
        return Ok((Items::new(alloc), end));
    }
    constants_up_to(alloc, tokens, at, levels, close)
}

/// One constant or more, up to and past the closing sign.
#[cycle(constant)]
pub(crate) fn constants_up_to(
    alloc: Global,
    tokens: &Tokens,
    at: usize,
    levels: u32,
    close: u32,
) -> Result<(PConsts, usize), ReadFault>
    requires inside { at ≤ length tokens.now }
    requires naturals { HaveNaturals tokens.now }
    requires close { IsEnd close }
    ensures moved { MovesOn tokens.now at result }
    ensures reads { (depth : ℕ) → levels + depth ≡ most_nested →
        (last : Region) → after (declaring depth) (Kind.Sign close) ≡ last →
        Reads (AreConstantsUpTo (Kind.Sign close)) tokens.now at (declaring depth) last result }
{
    let (first, after_first) = constant(alloc, tokens, at, levels)?;
    let mut all = Vec::new(alloc);
    all.push(first)?;
    let mut now = after_first;
    while let Some((_, next)) = past_sign(tokens, now, sign::COMMA) {
        let (more, after) = constant(alloc, tokens, next, levels)?;
        all.push(more)?;
        now = after;
    }
    let (_, end) = expect_sign(tokens, now, close)?;
    all.shrink_to_fit();
    Ok((Items::from_vec(all), end))
}
