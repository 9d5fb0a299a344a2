//! Reading conditions. A call goes deeper only where `!(` opens a level.
ghost use Rattle.std.specs.Prelude.{◌≡◌, ◌+◌, ◌≤◌, List, length, MatchOption};
ghost use Rattle.rn_notation.specs.declared.sign.TheConstants as sign;
ghost use Rattle.rn_inscript.specs.Conditions.{IsCond, IsAlternatives, IsBoth, IsSimple};
ghost use Rattle.rn_inscript.specs.Levels.{Level, without_minuses};
ghost use Rattle.rn_inscript.specs.Signs.{compare_of};
ghost use Rattle.rn_reading.specs.link.Stages.{IsNextOne, IsNotNext};
ghost use Rattle.rn_inscript.specs.link.Stages.{Reads, MovesOn, IsNextSign};
ghost use Rattle.rn_inscript.specs.link.Stages.{IsNotNextSign, or_strength, and_strength, comparing_strength};

use crate::conds::{PAlts, PCond, PSimple, PSimples};
use crate::cursor::{Read, Seen, expect_opening, expect_sign, past_sign};
use crate::expressions::expr;
use rn_items::Items;
use rn_model::CompareKind;
use rn_model::limits::MOST_NESTED;
use rn_notation::{TokenKind, Tokens, sign};
use rn_reading::{ReadFault, next};
use std::alloc::Global;

/// A comparison's sign, where it is next.
fn next_comparison(tokens: &Tokens, at: usize) -> Option<CompareKind>
    ensures { MatchOption result
        (IsNotNext (λ t. compare_of t.kind) tokens.now at)
        (IsNextOne (λ t. compare_of t.kind) tokens.now at) }
{
    match next(tokens, at)?.kind {
        TokenKind::Sign(sign::SAME) => Some(CompareKind::Same),
        TokenKind::Sign(sign::DIFFERS) => Some(CompareKind::Differs),
        TokenKind::Sign(sign::LESS) => Some(CompareKind::Less),
        TokenKind::Sign(sign::AT_MOST) => Some(CompareKind::AtMost),
        TokenKind::Sign(sign::GREATER) => Some(CompareKind::Greater),
        TokenKind::Sign(sign::AT_LEAST) => Some(CompareKind::AtLeast),
        _ => None,
    }
}

#[cycle(condition)]
pub(crate) fn cond(alloc: Global, tokens: &Tokens, seen: Seen, levels: u32) -> Read<PCond>
    requires { seen.at ≤ length tokens.now }
    ensures moved { MovesOn tokens.now seen result }
    ensures reads { (around : List Level) → without_minuses around ≡ around →
        levels + length around ≡ MOST_NESTED → Reads or_strength IsCond tokens.now seen around result }
{
    let (any, after) = alternatives(alloc, tokens, seen, levels)?;
    Ok((PCond { any }, after))
}

#[cycle(condition)]
fn alternatives(alloc: Global, tokens: &Tokens, seen: Seen, levels: u32) -> Read<PAlts>
    requires { seen.at ≤ length tokens.now }
    ensures moved { MovesOn tokens.now seen result }
    ensures reads { (around : List Level) → without_minuses around ≡ around →
        levels + length around ≡ MOST_NESTED → Reads or_strength IsAlternatives tokens.now seen around result }
{
    let (first, after_first) = both(alloc, tokens, seen, levels)?;
    let mut all = Vec::new(alloc);
    all.push(first)?;
    let mut seen = after_first;
    while let Some(_) = past_sign(tokens, seen, sign::OR) {
        let operand = seen.past_operator(tokens)?;
        let (alternative, after) = both(alloc, tokens, operand, levels)?;
        all.push(alternative)?;
        seen = after;
    }
    all.shrink_to_fit();
    Ok((Items::from_vec(all), seen))
}

#[cycle(condition)]
fn both(alloc: Global, tokens: &Tokens, seen: Seen, levels: u32) -> Read<PSimples>
    requires { seen.at ≤ length tokens.now }
    ensures moved { MovesOn tokens.now seen result }
    ensures reads { (around : List Level) → without_minuses around ≡ around →
        levels + length around ≡ MOST_NESTED → Reads and_strength IsBoth tokens.now seen around result }
{
    let (first, after_first) = simple(alloc, tokens, seen, levels)?;
    let mut all = Vec::new(alloc);
    all.push(first)?;
    let mut seen = after_first;
    while let Some(_) = past_sign(tokens, seen, sign::AND) {
        let operand = seen.past_operator(tokens)?;
        let (condition, after) = simple(alloc, tokens, operand, levels)?;
        all.push(condition)?;
        seen = after;
    }
    all.shrink_to_fit();
    Ok((Items::from_vec(all), seen))
}

#[cycle(condition)]
fn simple(alloc: Global, tokens: &Tokens, seen: Seen, levels: u32) -> Read<PSimple>
    requires { seen.at ≤ length tokens.now }
    ensures moved { MovesOn tokens.now seen result }
    ensures reads { (around : List Level) → without_minuses around ≡ around →
        levels + length around ≡ MOST_NESTED → Reads comparing_strength IsSimple tokens.now seen around result }
{
    match past_sign(tokens, seen, sign::NOT) {
        Some(_) => negation(alloc, tokens, seen, levels),
        None => comparison(alloc, tokens, seen, levels),
    }
}

#[cycle(condition)]
fn negation(alloc: Global, tokens: &Tokens, seen: Seen, levels: u32) -> Read<PSimple>
    requires { IsNextSign tokens.now seen.at sign.NOT }
    ensures moved { MovesOn tokens.now seen result }
    ensures reads { (around : List Level) → without_minuses around ≡ around →
        levels + length around ≡ MOST_NESTED → Reads comparing_strength IsSimple tokens.now seen around result }
{
    let after_not = seen.past_operator(tokens)?;
    let inside = expect_opening(tokens, after_not, levels)?;
    let (condition, after) = cond(alloc, tokens, inside, levels - 1)?;
    let end = expect_sign(tokens, after, sign::RIGHT_PAREN)?;
    Ok((PSimple::Not(condition), end))
}

/// A comparison, or an expression alone.
fn comparison(alloc: Global, tokens: &Tokens, seen: Seen, levels: u32) -> Read<PSimple>
    requires inside { seen.at ≤ length tokens.now }
    requires other { IsNotNextSign tokens.now seen.at sign.NOT }
    ensures moved { MovesOn tokens.now seen result }
    ensures reads { (around : List Level) → without_minuses around ≡ around →
        levels + length around ≡ MOST_NESTED → Reads comparing_strength IsSimple tokens.now seen around result }
{
    let (left, after) = expr(alloc, tokens, seen, levels)?;
    match next_comparison(tokens, after.at) {
        Some(kind) => {
            let operand = after.past_operator(tokens)?;
            let (right, end) = expr(alloc, tokens, operand, levels)?;
            Ok((PSimple::Compare(kind, left, right), end))
        }
        None => Ok((PSimple::Bare(left), after)),
    }
}
