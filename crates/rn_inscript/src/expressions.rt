//! Reading expressions. A call goes deeper only where a level opens; sums, products and lists go by
//! loops.
#![tactic(auto, using(crate::proofs::ReaderExits::out_of_memory))]

ghost use Rattle.std.specs.Prelude.{◌≡◌, ◌↔◌, ◌+◌, ◌≤◌, List, length, IfOk, IsTrue, MatchOption};
ghost use Rattle.std.specs.Prelude.{codes, ◌∷◌};
ghost use Rattle.rn_notation.specs.declared.sign.TheConstants as sign;
ghost use Rattle.rn_notation.specs.declared.token.TokenKind.TheVariants as Kind;
ghost use Rattle.rn_notation.specs.StoredTokens.{lent};
ghost use Rattle.rn_inscript.specs.Expressions.{IsExpr, IsProduct, IsUnary, IsPrimary, IsListed};
ghost use Rattle.rn_inscript.specs.Expressions.{IsExprs, joined, at_spot};
ghost use Rattle.rn_inscript.specs.Signs.{open_brace, open_bracket, open_paren, minus, plus_of};
ghost use Rattle.rn_inscript.specs.Signs.{times_of};
ghost use Rattle.rn_inscript.specs.Levels.{Level, bracket, without_minuses};
ghost use Rattle.rn_reading.specs.link.Stages.{IsNext, IsNextOne, IsNotNext};
ghost use Rattle.rn_inscript.specs.link.Stages.{Reads, ReadsFrom, MovesOn};
ghost use Rattle.rn_inscript.specs.link.Stages.{IsClose, IsNotNextSign, ready, comparing_strength};
ghost use Rattle.rn_inscript.specs.link.Stages.{sum_strength, product_strength, call_strength};

use crate::cursor::{Read, Seen, expect_sign, past_sign};
use crate::exprs::{PExpr, PExprs, PForm};
use rn_items::{Boxed, Items};
use rn_model::OpKind;
use rn_model::limits::MOST_NESTED;
use rn_notation::{Spot, TokenKind, TokenRef, Tokens, sign, word};
use rn_reading::{ReadFault, next};
use rn_value::{NoMemory, Str, copy_text};
use std::alloc::Global;

/// `+` or `-`, where it is next.
fn next_plus(tokens: &Tokens, at: usize) -> Option<OpKind>
    ensures { MatchOption result
        (IsNotNext (λ t. plus_of t.kind) tokens.now at)
        (IsNextOne (λ t. plus_of t.kind) tokens.now at) }
{
    match next(tokens, at)?.kind {
        TokenKind::Sign(sign::PLUS) => Some(OpKind::Add),
        TokenKind::Sign(sign::MINUS) => Some(OpKind::Sub),
        _ => None,
    }
}

/// `*`, `/` or `%`, where it is next.
fn next_times(tokens: &Tokens, at: usize) -> Option<OpKind>
    ensures { MatchOption result
        (IsNotNext (λ t. times_of t.kind) tokens.now at)
        (IsNextOne (λ t. times_of t.kind) tokens.now at) }
{
    match next(tokens, at)?.kind {
        TokenKind::Sign(sign::STAR) => Some(OpKind::Mul),
        TokenKind::Sign(sign::SLASH) => Some(OpKind::Div),
        TokenKind::Sign(sign::PERCENT) => Some(OpKind::Rem),
        _ => None,
    }
}

/// Two expressions with an operator between them.
fn join(alloc: Global, op: OpKind, a: PExpr, b: PExpr) -> Result<PExpr, NoMemory>
    ensures { IfOk result (λ e. e ≡ joined op a b) }
{
    let spot = a.spot;
    let left = Boxed::new(alloc, a)?;
    let right = Boxed::new(alloc, b)?;
    let form = PForm::Op(op, left, right);
    Ok(PExpr { form, spot })
}

fn negate(alloc: Global, spot: Spot, e: PExpr) -> Result<PExpr, NoMemory>
    ensures { IfOk result (λ negative. negative ≡ at_spot spot (PForm.Neg e)) }
{
    let form = PForm::Neg(Boxed::new(alloc, e)?);
    Ok(PExpr { form, spot })
}

/// A minus, where it is next.
fn next_minus(tokens: &Tokens, at: usize) -> Option<TokenRef<'_>>
    ensures { MatchOption result (IsNotNextSign tokens.now at sign.MINUS)
        (λ t. IsNext tokens.now at (lent t) × (t.kind.now ≡ minus)) }
{
    let token = next(tokens, at)?;
    match token.kind {
        TokenKind::Sign(sign::MINUS) => Some(token),
        _ => None,
    }
}

fn list_at(spot: Spot, elements: PExprs) -> PExpr
    ensures { result ≡ at_spot spot (PForm.List elements) }
{
    let form = PForm::List(elements);
    PExpr { form, spot }
}

fn with_tail(alloc: Global, spot: Spot, elements: PExprs, tail: PExpr) -> Result<PExpr, NoMemory>
    ensures { IfOk result (λ e. e ≡ at_spot spot (PForm.Cons elements tail)) }
{
    let form = PForm::Cons(elements, Boxed::new(alloc, tail)?);
    Ok(PExpr { form, spot })
}

fn is_step(name: &Str) -> bool
    ensures { IsTrue result ↔ (name.now ≡ codes "step") }
{
    name.as_str() == "step"
}

/// A variable, or `step()`, whose name is next.
fn named(
    alloc: Global,
    tokens: &Tokens,
    seen: Seen,
    levels: u32,
    token: TokenRef<'_>,
    name: &Str,
) -> Read<PExpr>
    requires next { IsNext tokens.now seen.at (lent token) }
    requires name { token.kind.now ≡ Kind.Name name.now }
    ensures moved { MovesOn tokens.now seen result }
    ensures reads { (around : List Level) → levels + length around ≡ MOST_NESTED →
        Reads call_strength IsPrimary tokens.now seen around result }
{
    let after = seen.past(tokens);
    if is_step(name) {
        if let Some(_) = past_sign(tokens, after, sign::LEFT_PAREN) {
            let inside = after.past_opening(tokens, levels)?;
            let end = expect_sign(tokens, inside, sign::RIGHT_PAREN)?;
            let (form, spot) = (PForm::Step, token.spot);
            return Ok((PExpr { form, spot }, end));
        }
    }
    let text = copy_text(alloc, name)?;
    let (form, spot) = (PForm::Name(text), token.spot);
    Ok((PExpr { form, spot }, after))
}

/// `this`, which is the only word that is an expression.
fn this(tokens: &Tokens, seen: Seen, token: TokenRef<'_>, number: u32) -> Read<PExpr>
    requires next { IsNext tokens.now seen.at (lent token) }
    requires kind { token.kind.now ≡ Kind.Word number }
    ensures moved { MovesOn tokens.now seen result }
    ensures reads { (around : List Level) → Reads call_strength IsPrimary tokens.now seen around result }
{
    if number != word::THIS {
        return Err(ReadFault::Stopped(seen.at));
    }
    let (form, spot) = (PForm::This, token.spot);
    Ok((PExpr { form, spot }, seen.past(tokens)))
}

#[cycle(expression)]
fn primary(alloc: Global, tokens: &Tokens, seen: Seen, levels: u32) -> Read<PExpr>
    requires { seen.at ≤ length tokens.now }
    ensures moved { MovesOn tokens.now seen result }
    ensures reads { (around : List Level) → levels + length around ≡ MOST_NESTED →
        Reads call_strength IsPrimary tokens.now seen around result }
{
    match next(tokens, seen.at) {
        Some(token) => match token.kind {
            TokenKind::Number(n) => {
                let (form, spot) = (PForm::Int(*n), token.spot);
                Ok((PExpr { form, spot }, seen.past(tokens)))
            }
            TokenKind::Text(text) => {
                let (form, spot) = (PForm::Text(copy_text(alloc, text)?), token.spot);
                Ok((PExpr { form, spot }, seen.past(tokens)))
            }
            TokenKind::Name(name) => named(alloc, tokens, seen, levels, token, name),
            TokenKind::Word(number) => this(tokens, seen, token, *number),
            TokenKind::Sign(opening) => bracketed(alloc, tokens, seen, levels, token, *opening),
        },
        None => Err(ReadFault::Stopped(seen.at)),
    }
}

/// What begins with a sign: an expression in parentheses, a tuple or a list.
#[cycle(expression)]
fn bracketed(
    alloc: Global,
    tokens: &Tokens,
    seen: Seen,
    levels: u32,
    token: TokenRef<'_>,
    opening: u32,
) -> Read<PExpr>
    requires next { IsNext tokens.now seen.at (lent token) }
    requires kind { token.kind.now ≡ Kind.Sign opening }
    ensures moved { MovesOn tokens.now seen result }
    ensures reads { (around : List Level) → levels + length around ≡ MOST_NESTED →
        Reads call_strength IsPrimary tokens.now seen around result }
{
    if opening == sign::LEFT_PAREN {
        parenthesised(alloc, tokens, seen, levels, token)
    } else if opening == sign::LEFT_BRACKET {
        tuple(alloc, tokens, seen, levels, token)
    } else if opening == sign::LEFT_BRACE {
        list(alloc, tokens, seen, levels, token)
    } else {
        Err(ReadFault::Stopped(seen.at))
    }
}

#[cycle(expression)]
fn parenthesised(
    alloc: Global,
    tokens: &Tokens,
    seen: Seen,
    levels: u32,
    token: TokenRef<'_>,
) -> Read<PExpr>
    requires next { IsNext tokens.now seen.at (lent token) }
    requires kind { token.kind.now ≡ open_paren }
    ensures moved { MovesOn tokens.now seen result }
    ensures reads { (around : List Level) → levels + length around ≡ MOST_NESTED →
        Reads call_strength IsPrimary tokens.now seen around result }
{
    let inside = seen.past_opening(tokens, levels)?;
    let (inner, after) = expr(alloc, tokens, inside, levels - 1)?;
    let end = expect_sign(tokens, after, sign::RIGHT_PAREN)?;
    Ok((inner, end))
}

#[cycle(expression)]
fn tuple(
    alloc: Global,
    tokens: &Tokens,
    seen: Seen,
    levels: u32,
    token: TokenRef<'_>,
) -> Read<PExpr>
    requires next { IsNext tokens.now seen.at (lent token) }
    requires kind { token.kind.now ≡ open_bracket }
    ensures moved { MovesOn tokens.now seen result }
    ensures reads { (around : List Level) → levels + length around ≡ MOST_NESTED →
        Reads call_strength IsPrimary tokens.now seen around result }
{
    let inside = seen.past_opening(tokens, levels)?;
    let (parts, end) = listed(alloc, tokens, inside, levels - 1, sign::RIGHT_BRACKET)?;
    let (form, spot) = (PForm::Tuple(parts), token.spot);
    Ok((PExpr { form, spot }, end))
}

#[cycle(expression)]
fn list(alloc: Global, tokens: &Tokens, seen: Seen, levels: u32, token: TokenRef<'_>) -> Read<PExpr>
    requires next { IsNext tokens.now seen.at (lent token) }
    requires kind { token.kind.now ≡ open_brace }
    ensures moved { MovesOn tokens.now seen result }
    ensures reads { (around : List Level) → levels + length around ≡ MOST_NESTED →
        Reads call_strength IsPrimary tokens.now seen around result }
{
    let inside = seen.past_opening(tokens, levels)?;
    if let Some(end) = past_sign(tokens, inside, sign::RIGHT_BRACE) {
        return Ok((list_at(token.spot, Items::new(alloc)), end));
    }
    let (elements, after) = exprs(alloc, tokens, inside, levels - 1)?;
    if let Some(tail_seen) = past_sign(tokens, after, sign::COLON) {
        let (tail, after_tail) = expr(alloc, tokens, tail_seen, levels - 1)?;
        let end = expect_sign(tokens, after_tail, sign::RIGHT_BRACE)?;
        return Ok((with_tail(alloc, token.spot, elements, tail)?, end));
    }
    let end = expect_sign(tokens, after, sign::RIGHT_BRACE)?;
    Ok((list_at(token.spot, elements), end))
}

/// What stands after an opening bracket, up to and with the closing one.
#[cycle(expression)]
pub(crate) fn listed(
    alloc: Global,
    tokens: &Tokens,
    seen: Seen,
    levels: u32,
    close: u32,
) -> Read<PExprs>
    requires inside { seen.at ≤ length tokens.now }
    requires close { IsClose close }
    ensures moved { MovesOn tokens.now seen result }
    ensures reads { (around : List Level) → levels + length (bracket ∷ around) ≡ MOST_NESTED →
        ReadsFrom call_strength (IsListed (Kind.Sign close)) tokens.now seen
        (ready (bracket ∷ around) seen.operators) around result }
{
    if let Some(end) = past_sign(tokens, seen, close) {
        return Ok((Items::new(alloc), end));
    }
    let (all, after) = exprs(alloc, tokens, seen, levels)?;
    let end = expect_sign(tokens, after, close)?;
    Ok((all, end))
}

#[cycle(expression)]
fn exprs(alloc: Global, tokens: &Tokens, seen: Seen, levels: u32) -> Read<PExprs>
    requires { seen.at ≤ length tokens.now }
    ensures moved { MovesOn tokens.now seen result }
    ensures reads { (around : List Level) → without_minuses around ≡ around → levels + length around ≡ MOST_NESTED →
        Reads comparing_strength IsExprs tokens.now seen around result }
{
    let (first, after_first) = expr(alloc, tokens, seen, levels)?;
    let mut all = Vec::new(alloc);
    all.push(first)?;
    let mut seen = after_first;
    while let Some(after_comma) = past_sign(tokens, seen, sign::COMMA) {
        let (e, after) = expr(alloc, tokens, after_comma, levels)?;
        all.push(e)?;
        seen = after;
    }
    all.shrink_to_fit();
    Ok((Items::from_vec(all), seen))
}

#[cycle(expression)]
fn negative(
    alloc: Global,
    tokens: &Tokens,
    seen: Seen,
    levels: u32,
    token: TokenRef<'_>,
) -> Read<PExpr>
    requires next { IsNext tokens.now seen.at (lent token) }
    requires kind { token.kind.now ≡ minus }
    ensures moved { MovesOn tokens.now seen result }
    ensures reads { (around : List Level) → levels + length around ≡ MOST_NESTED →
        Reads call_strength IsUnary tokens.now seen around result }
{
    let operand = seen.past_minus(tokens, levels)?;
    let (e, after) = unary(alloc, tokens, operand, levels - 1)?;
    Ok((negate(alloc, token.spot, e)?, after))
}

#[cycle(expression)]
fn unary(alloc: Global, tokens: &Tokens, seen: Seen, levels: u32) -> Read<PExpr>
    requires { seen.at ≤ length tokens.now }
    ensures moved { MovesOn tokens.now seen result }
    ensures reads { (around : List Level) → levels + length around ≡ MOST_NESTED →
        Reads call_strength IsUnary tokens.now seen around result }
{
    match next_minus(tokens, seen.at) {
        Some(token) => negative(alloc, tokens, seen, levels, token),
        None => primary(alloc, tokens, seen, levels),
    }
}

#[cycle(expression)]
fn product(alloc: Global, tokens: &Tokens, seen: Seen, levels: u32) -> Read<PExpr>
    requires { seen.at ≤ length tokens.now }
    ensures moved { MovesOn tokens.now seen result }
    ensures reads { (around : List Level) → without_minuses around ≡ around → levels + length around ≡ MOST_NESTED →
        Reads product_strength IsProduct tokens.now seen around result }
{
    let (first, after_first) = unary(alloc, tokens, seen, levels)?;
    let mut left = first;
    let mut seen = after_first;
    while let Some(op) = next_times(tokens, seen.at) {
        let operand = seen.past_operator(tokens)?;
        let (right, after) = unary(alloc, tokens, operand, levels)?;
        left = join(alloc, op, left, right)?;
        seen = after;
    }
    Ok((left, seen))
}

#[cycle(expression)]
pub(crate) fn expr(alloc: Global, tokens: &Tokens, seen: Seen, levels: u32) -> Read<PExpr>
    requires { seen.at ≤ length tokens.now }
    ensures moved { MovesOn tokens.now seen result }
    ensures reads { (around : List Level) → without_minuses around ≡ around → levels + length around ≡ MOST_NESTED →
        Reads sum_strength IsExpr tokens.now seen around result }
{
    let (first, after_first) = product(alloc, tokens, seen, levels)?;
    let mut left = first;
    let mut seen = after_first;
    while let Some(op) = next_plus(tokens, seen.at) {
        let operand = seen.past_operator(tokens)?;
        let (right, after) = product(alloc, tokens, operand, levels)?;
        left = join(alloc, op, left, right)?;
        seen = after;
    }
    Ok((left, seen))
}
