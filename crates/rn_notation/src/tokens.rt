//! Tokens one after another, in little memory.
ghost use Rattle.std.specs.Prelude.{◌≡◌, ◌↔◌, ◌<◌, ◌^◌, ◌++◌, ◌∷◌, [], Some, length, slice_get};
ghost use Rattle.std.specs.Prelude.{IsTrue, IfOk, OnOk, OnSome};
ghost use Rattle.std.specs.Option.{option_map};
ghost use Rattle.rn_notation.specs.StoredTokens.{lent, IsPrefixOf};

use crate::token::{Spot, TokenKind, TokenRef};
use rn_value::NoMemory;
use std::alloc::Global;
use std::marker::Model;

/// How many kinds are remembered. Tokens of equal kinds share one that is.
const REMEMBERED: usize = 4096;

/// A token whose kind stands in a list.
#[derive(Clone, Copy, Debug)]
struct Stored {
    kind: usize,
    start: u32,
    end: u32,
    spot: Spot,
}

/// Tokens one after another, which contracts see as their list.
///
/// A token takes 24 bytes, and equal kinds of tokens that aren't far from each other stand once.
/// `lex` makes them.
#[derive(Debug, Drop)]
pub struct Tokens {
    kinds: Vec<TokenKind>,
    stored: Vec<Stored>,
}

impl Model for Tokens {
    ghost use Rattle.std.specs.Prelude.{List, length, map};
    ghost use Rattle.std.specs.List.{AllByRecursion};
    ghost use Rattle.rn_notation.specs.StoredTokens.{token_stored, IsStored};
    ghost use Rattle.rn_notation.specs.declared.token.Token.{Token};

    ghost Value = { List Token };

    ghost view = { λ t. map (token_stored t.kinds.items) t.stored.items };

    ghost invariant = { λ t. AllByRecursion (IsStored (length t.kinds.items)) t.stored.items };
}

/// Where the kinds stand that are remembered, each at a number made of it. It says where to look
/// and is never trusted.
#[derive(Drop)]
pub(crate) struct Recent {
    places: Vec<usize>,
}

impl Recent {
    pub(crate) fn new(alloc: Global) -> Result<Recent, NoMemory> {
        Ok(Recent {
            places: vec![in alloc; 0; REMEMBERED]?,
        })
    }

    /// Where the last kind of this number stands, if there was one.
    fn place(&self, number: usize) -> usize {
        match self.places.get(number) {
            Some(place) => *place,
            None => 0,
        }
    }

    fn note(&mut self, number: usize, place: usize) {
        if number < self.places.len() {
            self.places[number] = place;
        }
    }
}

/// A number below `REMEMBERED` that is made of a kind. Equal kinds have one.
fn number_of(kind: &TokenKind) -> usize {
    match kind {
        TokenKind::Name(text) => stirred(1, text.as_str().as_bytes()),
        TokenKind::Text(text) => stirred(2, text.as_str().as_bytes()),
        TokenKind::Number(number) => stirred(3, number.to_le_bytes().as_slice()),
        TokenKind::Word(number) => *number as usize % REMEMBERED,
        TokenKind::Sign(number) => (*number as usize % REMEMBERED).wrapping_add(64),
    }
}

fn stirred(start: usize, bytes: &[u8]) -> usize {
    let mut number = start;
    for byte in bytes {
        number = number.wrapping_mul(16777619).wrapping_add(*byte as usize);
    }
    number.wrapping_add(number >> 20) % REMEMBERED
}

fn are_same(a: &TokenKind, b: &TokenKind) -> bool
    ensures { IsTrue result ↔ (a.now ≡ b.now) }
{
    match (a, b) {
        (TokenKind::Name(s), TokenKind::Name(t)) => s.as_str() == t.as_str(),
        (TokenKind::Word(m), TokenKind::Word(n)) => *m == *n,
        (TokenKind::Number(m), TokenKind::Number(n)) => *m == *n,
        (TokenKind::Text(s), TokenKind::Text(t)) => s.as_str() == t.as_str(),
        (TokenKind::Sign(m), TokenKind::Sign(n)) => *m == *n,
        _ => false,
    }
}

/// Whether a kind stands at a place.
fn is_at(kinds: &[TokenKind], place: usize, kind: &TokenKind) -> bool
    ensures { IsTrue result → slice_get kinds.now place ≡ Some kind.now }
{
    match kinds.get(place) {
        Some(known) => are_same(known, kind),
        None => false,
    }
}

impl Tokens {
    pub(crate) fn new(alloc: Global) -> Tokens
        ensures { result ≡ [] }
    {
        Tokens {
            kinds: Vec::new(alloc),
            stored: Vec::new(alloc),
        }
    }

    pub fn len(&self) -> usize
        ensures { result ≡ length self.now }
    {
        self.stored.len()
    }

    pub fn is_empty(&self) -> bool
        ensures { IsTrue result ↔ (self.now ≡ []) }
    {
        self.stored.is_empty()
    }

    /// The token at this index, from 0.
    pub fn get(&self, at: usize) -> Option<TokenRef<'_>>
        ensures value { option_map lent result ≡ slice_get self.now at }
        ensures within { OnSome result (at < length self.now) }
    {
        let stored = match self.stored.get(at) {
            Some(stored) => stored,
            None => return None,
        };
        Some(TokenRef {
            kind: &self.kinds[stored.kind],
            start: stored.start as usize,
            end: stored.end as usize,
            spot: stored.spot,
        })
    }

    /// One more token, at the end.
    pub(crate) fn push(
        &mut self,
        recent: &mut Recent,
        kind: TokenKind,
        slice: (usize, usize),
        spot: Spot,
    ) -> Result<(), NoMemory>
        requires { (slice.0 < 2 ^ 32) × (slice.1 < 2 ^ 32) }
        ensures { OnOk result (self.new ≡ self.old
            ++ record { kind = kind; start = slice.0; end = slice.1; spot = spot } ∷ []) }
    {
        let kind = place_of(&mut self.kinds, recent, kind)?;
        let (start, end) = slice;
        self.stored.push(Stored {
            kind,
            start: start as u32,
            end: end as u32,
            spot,
        })?;
        Ok(())
    }
}

/// The place of a kind, at which it is put unless an equal one is remembered.
fn place_of(
    kinds: &mut Vec<TokenKind>,
    recent: &mut Recent,
    kind: TokenKind,
) -> Result<usize, NoMemory>
    ensures place { IfOk result (λ place. slice_get kinds.new.items place ≡ Some kind) }
    ensures more { IsPrefixOf kinds.old.items kinds.new.items }
{
    let number = number_of(&kind);
    let known = recent.place(number);
    if is_at(kinds.as_slice(), known, &kind) {
        return Ok(known);
    }
    let place = kinds.len();
    kinds.push(kind)?;
    recent.note(number, place);
    Ok(place)
}
