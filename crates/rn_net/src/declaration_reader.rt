//! Reading declarations: channels, variables and places.
ghost use Rattle.std.specs.Prelude.{◌≡◌, ◌+◌, ◌≤◌, length, map, IfOk};
ghost use Rattle.rn_reading.specs.link.Stages.{MovesOn};
ghost use Rattle.rn_inscript.specs.link.Stages.{IsNextKind};
ghost use Rattle.rn_net.specs.Levels.Region.{between, declaring};
ghost use Rattle.rn_net.specs.Nets.{IsChannel, AreVars, IsPlace, var_of};
ghost use Rattle.rn_net.specs.link.Parts.{IsPName, AreNamesUpTo, IsInitialUpTo, IsPlaceEnd};
ghost use Rattle.rn_net.specs.link.Progress.{Reads, HaveNaturals};
ghost use Rattle.rn_net.specs.Words.{channel_word, var_word, place_word};

use crate::constant_reader::constants_up_to;
use crate::constants::PConsts;
use crate::cursor::{MOST_LEVELS, expect_name, expect_number, expect_sign, past_name, past_sign};
use crate::kind_reader::{kind, kinds_listed};
use crate::kinds::{PKind, PKindForm};
use crate::part::PlaceEnd;
use crate::plain::{PChannel, PMax, PPlace, PVar, PVars};
use rn_inscript::PName;
use rn_items::Items;
use rn_notation::{Tokens, sign};
use rn_reading::ReadFault;
use rn_shared::Shared;
use rn_value::{NoMemory, copy_text};
use std::alloc::Global;

/// `channel c(int,text);`, of which the word is next.
pub(crate) fn channel(
    alloc: Global,
    tokens: &Tokens,
    at: usize,
    start: usize,
) -> Result<(PChannel, usize), ReadFault>
    requires next { IsNextKind tokens.now at channel_word }
    requires start { start ≡ at + 1 }
    ensures moved { MovesOn tokens.now (at + 1) result }
    ensures reads { Reads IsChannel tokens.now at between between result }
{
    let (name, after_name) = expect_name(alloc, tokens, start)?;
    let (_, inside) = expect_sign(tokens, after_name, sign::LEFT_PAREN)?;
    let levels = MOST_LEVELS - 1;
    let (kinds, after) = kinds_listed(alloc, tokens, inside, levels, sign::RIGHT_PAREN)?;
    let (_, end) = expect_sign(tokens, after, sign::SEMICOLON)?;
    Ok((PChannel { name, kinds }, end))
}

fn one_name(alloc: Global, tokens: &Tokens, at: usize) -> Result<(PName, usize), ReadFault>
    requires { at ≤ length tokens.now }
    ensures moved { MovesOn tokens.now at result }
    ensures reads { Reads IsPName tokens.now at (declaring 0) (declaring 0) result }
{
    expect_name(alloc, tokens, at)
}

/// Names between which commas stand, up to and past the colon after them.
fn names_up_to(
    alloc: Global,
    tokens: &Tokens,
    at: usize,
) -> Result<(Items<PName>, usize), ReadFault>
    requires { at ≤ length tokens.now }
    ensures moved { MovesOn tokens.now at result }
    ensures reads { Reads AreNamesUpTo tokens.now at (declaring 0) (declaring 0) result }
{
    let (first, after_first) = one_name(alloc, tokens, at)?;
    let mut all = Vec::new(alloc);
    all.push(first)?;
    let mut now = after_first;
    while let Some((_, next)) = past_sign(tokens, now, sign::COMMA) {
        let (more, after) = one_name(alloc, tokens, next)?;
        all.push(more)?;
        now = after;
    }
    let (_, end) = expect_sign(tokens, now, sign::COLON)?;
    Ok((Items::from_vec(all), end))
}

/// One variable of this kind for each name.
fn vars_of(alloc: Global, kind: &Shared<PKind>, names: &Items<PName>) -> Result<PVars, NoMemory>
    ensures { IfOk result (λ vars. vars ≡ map (var_of kind.now) names.now) }
{
    let mut vars = Vec::with_capacity(alloc, names.len())?;
    for name in names.as_slice() {
        vars.push(var_named(alloc, kind, name)?)?;
    }
    Ok(Items::from_vec(vars))
}

/// One variable for each name, which share this kind.
fn vars_sharing(alloc: Global, kind: PKind, names: &Items<PName>) -> Result<PVars, NoMemory>
    ensures { IfOk result (λ vars. vars ≡ map (var_of kind) names.now) }
{
    vars_of(alloc, &Shared::new(alloc, kind)?, names)
}

fn var_named(alloc: Global, kind: &Shared<PKind>, name: &PName) -> Result<PVar, NoMemory>
    ensures { IfOk result (λ var. var ≡ var_of kind.now name.now) }
{
    let name = PName {
        text: copy_text(alloc, &name.text)?,
        spot: name.spot,
    };
    let kind = kind.share()?;
    Ok(PVar { name, kind })
}

/// `var x, y: int;`, of which the word is next.
pub(crate) fn vars(
    alloc: Global,
    tokens: &Tokens,
    at: usize,
    start: usize,
) -> Result<(PVars, usize), ReadFault>
    requires next { IsNextKind tokens.now at var_word }
    requires start { start ≡ at + 1 }
    ensures moved { MovesOn tokens.now (at + 1) result }
    ensures reads { Reads AreVars tokens.now at between between result }
{
    let (names, after_names) = names_up_to(alloc, tokens, start)?;
    let (kind, after) = kind(alloc, tokens, after_names, MOST_LEVELS)?;
    let (_, end) = expect_sign(tokens, after, sign::SEMICOLON)?;
    let vars = vars_sharing(alloc, kind, &names)?;
    Ok((vars, end))
}

/// The initial tokens of a place, up to and past the semicolon after them.
fn initial_up_to(alloc: Global, tokens: &Tokens, at: usize) -> Result<(PConsts, usize), ReadFault>
    requires inside { at ≤ length tokens.now }
    requires naturals { HaveNaturals tokens.now }
    ensures moved { MovesOn tokens.now at result }
    ensures reads { Reads IsInitialUpTo tokens.now at (declaring 0) between result }
{
    if let Some((_, end)) = past_sign(tokens, at, sign::SEMICOLON) {
        return Ok((Items::new(alloc), end));
    }
    let (_, start) = expect_sign(tokens, at, sign::EQUALS)?;
    constants_up_to(alloc, tokens, start, MOST_LEVELS, sign::SEMICOLON)
}

/// The capacity and the initial tokens of a place, up to and past the semicolon after them.
fn place_end(alloc: Global, tokens: &Tokens, at: usize) -> Result<(PlaceEnd, usize), ReadFault>
    requires inside { at ≤ length tokens.now }
    requires naturals { HaveNaturals tokens.now }
    ensures moved { MovesOn tokens.now at result }
    ensures reads { Reads IsPlaceEnd tokens.now at (declaring 0) between result }
{
    if let Some((_, after_word)) = past_name(tokens, at, "max") {
        let (spot, number, after_number) = expect_number(tokens, after_word)?;
        let (initial, end) = initial_up_to(alloc, tokens, after_number)?;
        let max = Some(PMax { number, spot });
        return Ok((PlaceEnd { max, initial }, end));
    }
    let (initial, end) = initial_up_to(alloc, tokens, at)?;
    Ok((PlaceEnd { max: None, initial }, end))
}

/// `place p: int max 5 = 1, 2;`, of which the word is next.
pub(crate) fn place(
    alloc: Global,
    tokens: &Tokens,
    at: usize,
    start: usize,
) -> Result<(PPlace, usize), ReadFault>
    requires naturals { HaveNaturals tokens.now }
    requires next { IsNextKind tokens.now at place_word }
    requires start { start ≡ at + 1 }
    ensures moved { MovesOn tokens.now (at + 1) result }
    ensures reads { Reads IsPlace tokens.now at between between result }
{
    let (name, after_name) = expect_name(alloc, tokens, start)?;
    if let Some((_, after_colon)) = past_sign(tokens, after_name, sign::COLON) {
        let (kind, after_kind) = kind(alloc, tokens, after_colon, MOST_LEVELS)?;
        let (PlaceEnd { max, initial }, end) = place_end(alloc, tokens, after_kind)?;
        let place = PPlace {
            name,
            kind,
            initial,
            max,
        };
        return Ok((place, end));
    }
    let (PlaceEnd { max, initial }, end) = place_end(alloc, tokens, after_name)?;
    let kind = PKind {
        form: PKindForm::Tuple(Items::new(alloc)),
        spot: name.spot,
    };
    let place = PPlace {
        name,
        kind,
        initial,
        max,
    };
    Ok((place, end))
}
