//! Patterns of kinds.
ghost use Rattle.std.specs.Prelude.{◌≡◌, map, slice_get, unwrap_or, IfOk, IsTrue};
ghost use Rattle.rn_declared.specs.Patterns.{share, all_share, both_of, all_both, pattern_of};
ghost use Rattle.rn_declared.specs.declared.pattern.Pattern.TheVariants as Form;

use rn_items::Items;
use rn_net::{PKind, PKindForm};
use rn_shared::Shared;
use rn_value::NoMemory;
use std::alloc::Global;

pub type Patterns = Items<Pattern>;

/// Which kinds an expression has: all that come of the pattern by putting some kind for each `Any`.
/// The pattern of `{}` is `List(Any)`. Patterns share their parts with those that they are made of.
#[derive(Debug, Drop)]
pub enum Pattern {
    Any,
    Int,
    Text,
    Tuple(Shared<Patterns>),
    List(Shared<Pattern>),
    Net,
}

/// Whether some kind comes of both.
#[cycle(share)]
pub fn share(a: &Pattern, b: &Pattern) -> bool
    ensures { result ≡ share a.now b.now }
{
    match a {
        Pattern::Any => true,
        Pattern::Int => matches!(b, Pattern::Int | Pattern::Any),
        Pattern::Text => matches!(b, Pattern::Text | Pattern::Any),
        Pattern::Tuple(parts) => match b {
            Pattern::Tuple(others) => all_share(parts.as_slice(), others.as_slice()),
            Pattern::Any => true,
            _ => false,
        },
        Pattern::List(part) => match b {
            Pattern::List(other) => share(part.get(), other.get()),
            Pattern::Any => true,
            _ => false,
        },
        Pattern::Net => matches!(b, Pattern::Net | Pattern::Any),
    }
}

#[cycle(share)]
#[tactic(auto, using(crate::proofs::PatternLemmas::all_share_lengths))]
fn all_share(parts: &[Pattern], others: &[Pattern]) -> bool
    ensures { result ≡ all_share (map share parts.now) others.now }
{
    if parts.len() != others.len() {
        return false;
    }
    for i in 0..parts.len() {
        if !share(&parts[i], &others[i]) {
            return false;
        }
    }
    true
}

/// The same pattern, which shares its parts with this one.
pub fn copy(pattern: &Pattern) -> Result<Pattern, NoMemory>
    ensures { IfOk result (λ p. p ≡ pattern.now) }
{
    match pattern {
        Pattern::Any => Ok(Pattern::Any),
        Pattern::Int => Ok(Pattern::Int),
        Pattern::Text => Ok(Pattern::Text),
        Pattern::Tuple(parts) => Ok(Pattern::Tuple(parts.share()?)),
        Pattern::List(part) => Ok(Pattern::List(part.share()?)),
        Pattern::Net => Ok(Pattern::Net),
    }
}

/// Whether two patterns are the same, found part by part.
#[cycle(same)]
fn same(a: &Pattern, b: &Pattern) -> bool
    ensures { IsTrue result → a.now ≡ b.now }
{
    match a {
        Pattern::Any => matches!(b, Pattern::Any),
        Pattern::Int => matches!(b, Pattern::Int),
        Pattern::Text => matches!(b, Pattern::Text),
        Pattern::Tuple(parts) => match b {
            Pattern::Tuple(others) => all_same(parts.as_slice(), others.as_slice()),
            _ => false,
        },
        Pattern::List(part) => match b {
            Pattern::List(other) => same(part.get(), other.get()),
            _ => false,
        },
        Pattern::Net => matches!(b, Pattern::Net),
    }
}

#[cycle(same)]
fn all_same(parts: &[Pattern], others: &[Pattern]) -> bool
    ensures { IsTrue result → parts.now ≡ others.now }
{
    if parts.len() != others.len() {
        return false;
    }
    for i in 0..parts.len() {
        if !same(&parts[i], &others[i]) {
            return false;
        }
    }
    true
}

/// A pattern that was made anew. Where it is the same as a known one, that one is shared, and the
/// new one is given up.
pub(crate) fn once(pattern: Pattern, known: &Pattern) -> Result<Pattern, NoMemory>
    ensures { IfOk result (λ p. p ≡ pattern) }
{
    if same(&pattern, known) {
        return Ok(copy(known)?);
    }
    Ok(pattern)
}

/// The tuple of these parts, or a known pattern that is the same.
fn tuple_once(alloc: Global, parts: Patterns, known: &Pattern) -> Result<Pattern, NoMemory>
    ensures { IfOk result (λ p. p ≡ Form.Tuple parts) }
{
    Ok(once(Pattern::Tuple(Shared::new(alloc, parts)?), known)?)
}

/// The list of this part, or a known pattern that is the same.
fn list_once(alloc: Global, part: Pattern, known: &Pattern) -> Result<Pattern, NoMemory>
    ensures { IfOk result (λ p. p ≡ Form.List part) }
{
    Ok(once(Pattern::List(Shared::new(alloc, part)?), known)?)
}

/// The pattern at an index, or `Any` past the end.
fn pattern_at(patterns: &Patterns, index: usize) -> Result<Pattern, NoMemory>
    ensures { IfOk result (λ p. p ≡ unwrap_or (slice_get patterns.now index) Form.Any) }
{
    match patterns.get(index) {
        Some(pattern) => Ok(copy(pattern)?),
        None => Ok(Pattern::Any),
    }
}

/// The pattern of the kinds that come of both, where they share some. It shares with the first all
/// in which it is the same, and with the second what stands there for an `Any`.
#[cycle(both)]
pub fn both_of(alloc: Global, a: &Pattern, b: &Pattern) -> Result<Pattern, NoMemory>
    ensures { IfOk result (λ p. p ≡ both_of a.now b.now) }
{
    match a {
        Pattern::Any => Ok(copy(b)?),
        Pattern::Int => Ok(Pattern::Int),
        Pattern::Text => Ok(Pattern::Text),
        Pattern::Tuple(parts) => match b {
            Pattern::Tuple(others) => Ok(tuple_both(alloc, parts.as_slice(), others.get(), a)?),
            _ => Ok(tuple_any(alloc, parts.as_slice(), a)?),
        },
        Pattern::List(part) => match b {
            Pattern::List(other) => {
                Ok(list_once(alloc, both_of(alloc, part.get(), other.get())?, a)?)
            }
            _ => Ok(list_once(alloc, both_of(alloc, part.get(), &Pattern::Any)?, a)?),
        },
        Pattern::Net => Ok(Pattern::Net),
    }
}

/// The tuple of what these parts have in common with others, or a known pattern that is the same.
#[cycle(both)]
fn tuple_both(
    alloc: Global,
    parts: &[Pattern],
    others: &Patterns,
    known: &Pattern,
) -> Result<Pattern, NoMemory>
    ensures { IfOk result (λ p. p ≡ Form.Tuple (all_both (map both_of parts.now) others.now)) }
{
    let mut patterns = Vec::with_capacity(alloc, parts.len())?;
    for i in 0..parts.len() {
        let other = pattern_at(others, i)?;
        patterns.push(both_of(alloc, &parts[i], &other)?)?;
    }
    Ok(tuple_once(alloc, Items::from_vec(patterns), known)?)
}

/// The tuple of what these parts have in common with `Any`, or a known pattern that is the same.
#[cycle(both)]
fn tuple_any(alloc: Global, parts: &[Pattern], known: &Pattern) -> Result<Pattern, NoMemory>
    ensures { IfOk result (λ p.
        p ≡ Form.Tuple (map (λ both. both Form.Any) (map both_of parts.now))) }
{
    let mut patterns = Vec::with_capacity(alloc, parts.len())?;
    for part in parts {
        patterns.push(both_of(alloc, part, &Pattern::Any)?)?;
    }
    Ok(tuple_once(alloc, Items::from_vec(patterns), known)?)
}

/// The pattern of a kind alone.
#[cycle(of)]
pub(crate) fn pattern_of(alloc: Global, kind: &PKind) -> Result<Pattern, NoMemory>
    ensures { IfOk result (λ p. p ≡ pattern_of kind.now) }
{
    match &kind.form {
        PKindForm::Int => Ok(Pattern::Int),
        PKindForm::Text => Ok(Pattern::Text),
        PKindForm::Tuple(parts) => {
            let patterns = patterns_of(alloc, parts.as_slice())?;
            Ok(Pattern::Tuple(Shared::new(alloc, patterns)?))
        }
        PKindForm::List(part) => {
            Ok(Pattern::List(Shared::new(alloc, pattern_of(alloc, part.get())?)?))
        }
        PKindForm::Net => Ok(Pattern::Net),
    }
}

#[cycle(of)]
pub(crate) fn patterns_of(alloc: Global, kinds: &[PKind]) -> Result<Patterns, NoMemory>
    ensures { IfOk result (λ ps. ps ≡ map pattern_of kinds.now) }
{
    let mut patterns = Vec::with_capacity(alloc, kinds.len())?;
    for kind in kinds {
        patterns.push(pattern_of(alloc, kind)?)?;
    }
    Ok(Items::from_vec(patterns))
}
