//! Reading kinds. A call goes deeper only where a bracket opens a level.
ghost use Rattle.std.specs.Prelude.{◌≡◌, ℕ, ◌+◌, ◌≤◌, length};
ghost use Rattle.rn_notation.specs.declared.token.TokenKind.TheVariants as Kind;
ghost use Rattle.rn_model.specs.Limits.{most_nested};
ghost use Rattle.rn_reading.specs.link.Stages.{MovesOn};
ghost use Rattle.rn_inscript.specs.Signs.{open_brace, open_bracket};
ghost use Rattle.rn_net.specs.Kinds.{IsKind, AreListed};
ghost use Rattle.rn_net.specs.Levels.Region.{declaring};
ghost use Rattle.rn_net.specs.link.Progress.{Reads, HasNext};
ghost use Rattle.rn_net.specs.link.Lists.{AreKindsUpTo};
ghost use Rattle.rn_inscript.specs.link.Stages.{IsClose};

use crate::cursor::{expect_sign, open_level, past_sign, past_word};
use crate::kinds::{PKind, PKindForm, PKinds};
use rn_items::{Boxed, Items};
use rn_notation::{Spot, Tokens, sign, word};
use rn_reading::ReadFault;
use std::alloc::Global;

/// The kind that begins at an index, and the index after it. So many more levels may be opened.
#[cycle(kind)]
pub(crate) fn kind(
    alloc: Global,
    tokens: &Tokens,
    at: usize,
    levels: u32,
) -> Result<(PKind, usize), ReadFault>
    requires { at ≤ length tokens.now }
    ensures moved { MovesOn tokens.now at result }
    ensures reads { (depth : ℕ) → levels + depth ≡ most_nested →
        Reads IsKind tokens.now at (declaring depth) (declaring depth) result }
{
    if let Some((spot, end)) = past_word(tokens, at, word::INT) {
        let form = PKindForm::Int;
        return Ok((PKind { form, spot }, end));
    }
    if let Some((spot, end)) = past_word(tokens, at, word::TEXT) {
        let form = PKindForm::Text;
        return Ok((PKind { form, spot }, end));
    }
    if let Some((spot, end)) = past_word(tokens, at, word::NET) {
        let form = PKindForm::Net;
        return Ok((PKind { form, spot }, end));
    }
    if let Some((spot, inside)) = past_sign(tokens, at, sign::LEFT_BRACKET) {
        return tuple(alloc, tokens, at, levels, spot, inside);
    }
    if let Some((spot, inside)) = past_sign(tokens, at, sign::LEFT_BRACE) {
        return list(alloc, tokens, at, levels, spot, inside);
    }
    Err(ReadFault::Stopped(at))
}

/// `[K1,K2]`, of which the bracket is next.
#[cycle(kind)]
fn tuple(
    alloc: Global,
    tokens: &Tokens,
    at: usize,
    levels: u32,
    spot: Spot,
    inside: usize,
) -> Result<(PKind, usize), ReadFault>
    requires next { HasNext tokens.now at open_bracket spot }
    requires inside { inside ≡ at + 1 }
    ensures moved { MovesOn tokens.now at result }
    ensures reads { (depth : ℕ) → levels + depth ≡ most_nested →
        Reads IsKind tokens.now at (declaring depth) (declaring depth) result }
{
    let levels_inside = open_level(at, levels)?;
    let (parts, end) = kinds_listed(alloc, tokens, inside, levels_inside, sign::RIGHT_BRACKET)?;
    let form = PKindForm::Tuple(parts);
    Ok((PKind { form, spot }, end))
}

/// `{K}`, of which the brace is next.
#[cycle(kind)]
fn list(
    alloc: Global,
    tokens: &Tokens,
    at: usize,
    levels: u32,
    spot: Spot,
    inside: usize,
) -> Result<(PKind, usize), ReadFault>
    requires next { HasNext tokens.now at open_brace spot }
    requires inside { inside ≡ at + 1 }
    ensures moved { MovesOn tokens.now at result }
    ensures reads { (depth : ℕ) → levels + depth ≡ most_nested →
        Reads IsKind tokens.now at (declaring depth) (declaring depth) result }
{
    let levels_inside = open_level(at, levels)?;
    let (element, after) = kind(alloc, tokens, inside, levels_inside)?;
    let (_, end) = expect_sign(tokens, after, sign::RIGHT_BRACE)?;
    let form = PKindForm::List(Boxed::new(alloc, element)?);
    Ok((PKind { form, spot }, end))
}

/// Kinds, or none, up to and past the closing bracket.
#[cycle(kind)]
pub(crate) fn kinds_listed(
    alloc: Global,
    tokens: &Tokens,
    at: usize,
    levels: u32,
    close: u32,
) -> Result<(PKinds, usize), ReadFault>
    requires inside { at ≤ length tokens.now }
    requires close { IsClose close }
    ensures moved { MovesOn tokens.now at result }
    ensures reads { (depth : ℕ) → levels + (depth + 1) ≡ most_nested →
        Reads (AreListed (Kind.Sign close)) tokens.now at (declaring (depth + 1)) (declaring depth) result }
{
    if let Some((_, end)) = past_sign(tokens, at, close) {
        return Ok((Items::new(alloc), end));
    }
    kinds_up_to(alloc, tokens, at, levels, close)
}

/// One kind or more, up to and past the closing bracket.
#[cycle(kind)]
fn kinds_up_to(
    alloc: Global,
    tokens: &Tokens,
    at: usize,
    levels: u32,
    close: u32,
) -> Result<(PKinds, usize), ReadFault>
    requires inside { at ≤ length tokens.now }
    requires close { IsClose close }
    ensures moved { MovesOn tokens.now at result }
    ensures reads { (depth : ℕ) → levels + (depth + 1) ≡ most_nested →
        Reads (AreKindsUpTo (Kind.Sign close)) tokens.now at (declaring (depth + 1)) (declaring depth) result }
{
    let (first, after_first) = kind(alloc, tokens, at, levels)?;
    let mut all = Vec::new(alloc);
    all.push(first)?;
    let mut now = after_first;
    while let Some((_, next)) = past_sign(tokens, now, sign::COMMA) {
        let (more, after) = kind(alloc, tokens, next, levels)?;
        all.push(more)?;
        now = after;
    }
    let (_, end) = expect_sign(tokens, now, close)?;
    Ok((Items::from_vec(all), end))
}
