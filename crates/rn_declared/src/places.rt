//! Variables and places: what is broken in their declarations is reported.
ghost use Rattle.std.specs.Prelude.{◌≡◌, ◌-◌, ◌++◌, ℕ, List, Some, OnOk, IfOk, IfSome, map, flat_map};
ghost use Rattle.std.specs.Option.{option_and_then};
ghost use Rattle.std.specs.Prelude.{slice_get, length, option_copied, option_map, is_some};
ghost use Rattle.std.specs.Prelude.{not, nat_le, nat_abs};
ghost use Rattle.rn_model.specs.Limits.{most_vars, most_places, most_initial, greatest_capacity};
ghost use Rattle.rn_declared.specs.declared.fault.Rule.TheVariants as Rules;
ghost use Rattle.rn_declared.specs.Faults.{first_from, broken_if, past, past_limit};
ghost use Rattle.rn_declared.specs.Patterns.{pattern_of};
ghost use Rattle.rn_declared.specs.Names.{number_among, declared_faults};
ghost use Rattle.rn_declared.specs.Declarations.{kind_faults, place_faults, token_faults, const_part};
ghost use Rattle.rn_declared.specs.Declarations.{capacity_faults, has_capacity};
ghost use Rattle.rn_declared.specs.link.SeenBefore.{WasSeen};
ghost use Rattle.rn_declared.specs.link.Tables.{pattern_in, capped_in};

use crate::fault::Rule;
use crate::first::First;
use crate::kinds::{fits, same, see_const, see_kind};
use crate::located::{Located, tell_past, tell_past_by};
use crate::names::declare_all;
use crate::pattern::{Pattern, copy, once, pattern_of};
use crate::table::{Declared, DeclaredPlaces};
use rn_items::Items;
use rn_model::limits::{GREATEST_CAPACITY, MOST_INITIAL, MOST_PLACES, MOST_VARS};
use rn_net::{PConst, PKind, PMax, PPlace, PVar};
use rn_value::NoMemory;
use std::alloc::Global;

/// The pattern of a kind, which is shared with the last of these patterns where it is the same.
fn pattern_after(alloc: Global, before: &[Pattern], kind: &PKind) -> Result<Pattern, NoMemory>
    ensures { IfOk result (λ p. p ≡ pattern_of kind.now) }
{
    let pattern = pattern_of(alloc, kind)?;
    match before.last() {
        Some(last) => Ok(once(pattern, last)?),
        None => Ok(pattern),
    }
}

/// The last of these patterns, where a variable has the kind of the one before it.
fn pattern_again(
    var: &PVar,
    before: Option<&PVar>,
    patterns: &[Pattern],
) -> Result<Option<Pattern>, NoMemory>
    ensures { IfOk result (λ again. IfSome again (λ p.
        (option_map (λ v. v.kind) (option_copied before.entry) ≡ Some var.now.kind)
        × (slice_get patterns.now (length patterns.now - 1) ≡ Some p))) }
{
    let Some(before) = before else {
        return Ok(None);
    };
    if !same(before.kind.get(), var.kind.get()) {
        return Ok(None);
    }
    match patterns.last() {
        Some(last) => Ok(Some(copy(last)?)),
        None => Ok(None),
    }
}

/// Reports what is broken in the kind of a variable, and gives its pattern. Where that is the kind
/// of the variable before it, all was reported, and its pattern is there.
fn see_var(
    alloc: Global,
    var: &PVar,
    before: Option<&PVar>,
    patterns: &[Pattern],
    first: &mut First,
) -> Result<Pattern, NoMemory>
    requires { IfSome (option_copied before) (WasSeen first.old.fault patterns.now) }
    ensures told { OnOk result (first.new.fault ≡ first_from first.old.fault
        (kind_faults var.now.kind)) }
    ensures pattern { IfOk result (λ p. p ≡ pattern_of var.now.kind) }
{
    if let Some(pattern) = pattern_again(var, before, patterns)? {
        return Ok(pattern);
    }
    see_kind(var.kind.get(), first);
    pattern_after(alloc, patterns, var.kind.get())
}

/// The variables of a net by their names, with the patterns of their kinds. What is broken in their
/// declarations is reported.
pub fn declare_vars(alloc: Global, vars: &[PVar], first: &mut First) -> Result<Declared, NoMemory>
    ensures told { OnOk result (first.new.fault ≡ first_from first.old.fault
        (declared_faults most_vars (map (λ v. v.name) vars.now)
        ++ flat_map (λ v. kind_faults v.kind) vars.now)) }
    ensures found { IfOk result (λ declared. (name : List ℕ) → pattern_in declared name
        ≡ option_and_then (slice_get (map (λ v. pattern_of v.kind) vars.now))
        (number_among (map (λ v. v.name.text) vars.now) name)) }
{
    let table = declare_all(alloc, vars, MOST_VARS, first)?;
    let mut patterns = Vec::with_capacity(alloc, vars.len())?;
    let mut before = None;
    for var in vars {
        let pattern = see_var(alloc, var, before, patterns.as_slice(), first)?;
        patterns.push(pattern)?;
        before = Some(var);
    }
    Ok(Declared {
        table,
        patterns: Items::from_vec(patterns),
    })
}

/// Reports what is broken in an initial token of a place with a kind of this pattern.
fn see_token(token: &PConst, pattern: &Pattern, first: &mut First)
    ensures { first.new.fault ≡ first_from first.old.fault (token_faults pattern.now token.now) }
{
    see_const(token, first);
    first.tell_if(!fits(token, pattern), Rule::Kinds, token.spot());
}

/// Reports what is broken in the initial tokens of a place with a kind of this pattern.
fn see_tokens(tokens: &[PConst], pattern: &Pattern, first: &mut First)
    ensures { first.new.fault ≡ first_from first.old.fault
        (flat_map (token_faults pattern.now) tokens.now
        ++ past_limit most_initial (map (λ token. (const_part token).spot) tokens.now)) }
{
    for token in tokens {
        see_token(token, pattern, first);
    }
    tell_past(tokens, MOST_INITIAL, first);
}

/// The number of a capacity, without its sign, which none in a text has.
fn most_of(max: &PMax) -> usize
    ensures { result ≡ nat_abs max.now.number }
{
    max.number.unsigned_abs() as usize
}

/// Reports a capacity that is too great.
fn tell_great(max: &PMax, first: &mut First)
    ensures { first.new.fault ≡ first_from first.old.fault
        (broken_if (not (nat_le (nat_abs max.now.number) greatest_capacity)) Rules.Limit max.now.spot) }
{
    let most = most_of(max);
    first.tell_if(most > GREATEST_CAPACITY as usize, Rule::Limit, max.spot);
}

/// Reports the first token past a capacity, where there are more.
fn tell_more(max: &PMax, tokens: &[PConst], first: &mut First)
    ensures { first.new.fault ≡ first_from first.old.fault
        (past Rules.Capacity (nat_abs max.now.number)
        (map (λ token. (const_part token).spot) tokens.now)) }
{
    let most = most_of(max);
    tell_past_by(Rule::Capacity, tokens, most, first);
}

/// Reports what is broken in the capacity of a place that begins with these tokens.
fn see_capacity(place: &PPlace, tokens: &[PConst], first: &mut First)
    ensures { first.new.fault ≡ first_from first.old.fault
        (capacity_faults place.now.max (map (λ token. (const_part token).spot) tokens.now)) }
{
    match &place.max {
        Some(max) => {
            tell_great(max, first);
            tell_more(max, tokens, first);
        }
        None => {}
    }
}

/// Reports what is broken in the kind, which has this pattern, the initial tokens and the capacity
/// of a place.
fn see_place(place: &PPlace, pattern: &Pattern, first: &mut First)
    ensures { pattern.now ≡ pattern_of place.now.kind →
        first.new.fault ≡ first_from first.old.fault (place_faults place.now) }
{
    let tokens = place.initial.as_slice();
    see_kind(&place.kind, first);
    see_tokens(tokens, pattern, first);
    see_capacity(place, tokens, first);
}

/// The places of a net by their names, with the patterns of their kinds and whether they have a
/// capacity. What is broken in their declarations is reported.
pub fn declare_places(
    alloc: Global,
    places: &[PPlace],
    first: &mut First,
) -> Result<DeclaredPlaces, NoMemory>
    ensures told { OnOk result (first.new.fault ≡ first_from first.old.fault
        (declared_faults most_places (map (λ p. p.name) places.now)
        ++ flat_map place_faults places.now)) }
    ensures found { IfOk result (λ made. (name : List ℕ) → pattern_in made.declared name
        ≡ option_and_then (slice_get (map (λ p. pattern_of p.kind) places.now))
        (number_among (map (λ p. p.name.text) places.now) name)) }
    ensures capped { IfOk result (λ made. (name : List ℕ) →
        capped_in made name ≡ has_capacity places.now name) }
{
    let table = declare_all(alloc, places, MOST_PLACES, first)?;
    let mut patterns = Vec::with_capacity(alloc, places.len())?;
    let mut capped = Vec::with_capacity(alloc, places.len())?;
    for place in places {
        let pattern = pattern_of(alloc, &place.kind)?;
        see_place(place, &pattern, first);
        patterns.push(pattern)?;
        capped.push(place.max.is_some())?;
    }
    let patterns = Items::from_vec(patterns);
    Ok(DeclaredPlaces {
        declared: Declared { table, patterns },
        capped: Items::from_vec(capped),
    })
}
