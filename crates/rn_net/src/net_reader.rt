//! Reading transitions, nets and the items of a text.
ghost use Rattle.std.specs.Prelude.{◌≡◌, ◌+◌, ◌≤◌, length, IfOk};
ghost use Rattle.rn_reading.specs.link.Stages.{MovesOn};
ghost use Rattle.rn_inscript.specs.link.Stages.{IsNextKind};
ghost use Rattle.rn_net.specs.Levels.Region.{between};
ghost use Rattle.rn_net.specs.Nets.{IsTransition, IsNet};
ghost use Rattle.rn_net.specs.link.Parts.{IsNetPart, IsItem, with_part, ArePartsUpTo};
ghost use Rattle.rn_net.specs.link.Progress.{Reads, HaveNaturals};
ghost use Rattle.rn_net.specs.Words.{trans_word, net_word};

use crate::cursor::{expect_name, expect_sign, past_sign, past_word};
use crate::declaration_reader::{channel, place, vars};
use crate::inscription_reader::inscriptions_up_to;
use crate::part::{Item, Part};
use crate::plain::{PNet, PPlace, PTransition, PVars};
use rn_inscript::PName;
use rn_items::Items;
use rn_notation::{Tokens, sign, word};
use rn_reading::ReadFault;
use rn_value::NoMemory;
use std::alloc::Global;

/// `trans t { in p: x; }`, of which the word is next.
fn transition(
    alloc: Global,
    tokens: &Tokens,
    at: usize,
    start: usize,
    notation: u32,
) -> Result<(PTransition, usize), ReadFault>
    requires next { IsNextKind tokens.now at trans_word }
    requires start { start ≡ at + 1 }
    ensures moved { MovesOn tokens.now (at + 1) result }
    ensures reads { Reads (IsTransition notation) tokens.now at between between result }
{
    let (name, after_name) = expect_name(alloc, tokens, start)?;
    let (_, inside) = expect_sign(tokens, after_name, sign::LEFT_BRACE)?;
    let (inscriptions, end) = inscriptions_up_to(alloc, tokens, inside, notation)?;
    Ok((PTransition { name, inscriptions }, end))
}

/// One declaration of a net.
fn part(
    alloc: Global,
    tokens: &Tokens,
    at: usize,
    notation: u32,
) -> Result<(Part, usize), ReadFault>
    requires inside { at ≤ length tokens.now }
    requires naturals { HaveNaturals tokens.now }
    ensures moved { MovesOn tokens.now (at + 1) result }
    ensures reads { Reads (IsNetPart notation) tokens.now at between between result }
{
    if let Some((_, start)) = past_word(tokens, at, word::VAR) {
        let (more, end) = vars(alloc, tokens, at, start)?;
        return Ok((Part::Vars(more), end));
    }
    if let Some((_, start)) = past_word(tokens, at, word::PLACE) {
        let (more, end) = place(alloc, tokens, at, start)?;
        return Ok((Part::Place(more), end));
    }
    if let Some((_, start)) = past_word(tokens, at, word::TRANS) {
        let (more, end) = transition(alloc, tokens, at, start, notation)?;
        return Ok((Part::Transition(more), end));
    }
    Err(ReadFault::Stopped(at))
}

/// The net with one more part.
fn with_part(net: PNet, part: Part) -> Result<PNet, NoMemory>
    ensures { IfOk result (λ more. more ≡ with_part net part) }
{
    match part {
        Part::Vars(vars) => with_vars(net, vars),
        Part::Place(place) => with_place(net, place),
        Part::Transition(transition) => with_transition(net, transition),
    }
}

fn with_vars(net: PNet, more: PVars) -> Result<PNet, NoMemory>
    ensures { IfOk result (λ with. with ≡ with_part net (Part.Vars more)) }
{
    let mut vars = net.vars.into_vec();
    let mut more = more.into_vec();
    vars.append(&mut more)?;
    Ok(PNet {
        name: net.name,
        vars: Items::from_vec(vars),
        places: net.places,
        transitions: net.transitions,
    })
}

fn with_place(net: PNet, place: PPlace) -> Result<PNet, NoMemory>
    ensures { IfOk result (λ with. with ≡ with_part net (Part.Place place)) }
{
    let mut places = net.places;
    places.push(place)?;
    Ok(PNet {
        name: net.name,
        vars: net.vars,
        places,
        transitions: net.transitions,
    })
}

fn with_transition(net: PNet, transition: PTransition) -> Result<PNet, NoMemory>
    ensures { IfOk result (λ with. with ≡ with_part net (Part.Transition transition)) }
{
    let mut transitions = net.transitions;
    transitions.push(transition)?;
    Ok(PNet {
        name: net.name,
        vars: net.vars,
        places: net.places,
        transitions,
    })
}

/// The parts of a net, up to and past its closing brace.
fn parts_up_to(
    alloc: Global,
    tokens: &Tokens,
    at: usize,
    name: PName,
    notation: u32,
) -> Result<(PNet, usize), ReadFault>
    requires inside { at ≤ length tokens.now }
    requires naturals { HaveNaturals tokens.now }
    ensures moved { MovesOn tokens.now at result }
    ensures reads { Reads (ArePartsUpTo notation name) tokens.now at between between result }
{
    let mut net = PNet {
        name,
        vars: Items::new(alloc),
        places: Items::new(alloc),
        transitions: Items::new(alloc),
    };
    let mut now = at;
    'parts: loop {
        if let Some((_, end)) = past_sign(tokens, now, sign::RIGHT_BRACE) {
            return Ok((net, end));
        }
        let (more, after) = part(alloc, tokens, now, notation)?;
        net = with_part(net, more)?;
        now = after;
    }
}

/// `net n { .. }`, of which the word is next.
fn net(
    alloc: Global,
    tokens: &Tokens,
    at: usize,
    start: usize,
    notation: u32,
) -> Result<(PNet, usize), ReadFault>
    requires naturals { HaveNaturals tokens.now }
    requires next { IsNextKind tokens.now at net_word }
    requires start { start ≡ at + 1 }
    ensures moved { MovesOn tokens.now (at + 1) result }
    ensures reads { Reads (IsNet notation) tokens.now at between between result }
{
    let (name, after_name) = expect_name(alloc, tokens, start)?;
    let (_, inside) = expect_sign(tokens, after_name, sign::LEFT_BRACE)?;
    parts_up_to(alloc, tokens, inside, name, notation)
}

/// One channel or net.
pub(crate) fn item(
    alloc: Global,
    tokens: &Tokens,
    at: usize,
    notation: u32,
) -> Result<(Item, usize), ReadFault>
    requires inside { at ≤ length tokens.now }
    requires naturals { HaveNaturals tokens.now }
    ensures moved { MovesOn tokens.now (at + 1) result }
    ensures reads { Reads (IsItem notation) tokens.now at between between result }
{
    if let Some((_, start)) = past_word(tokens, at, word::CHANNEL) {
        let (more, end) = channel(alloc, tokens, at, start)?;
        return Ok((Item::Channel(more), end));
    }
    if let Some((_, start)) = past_word(tokens, at, word::NET) {
        let (more, end) = net(alloc, tokens, at, start, notation)?;
        return Ok((Item::Net(more), end));
    }
    Err(ReadFault::Stopped(at))
}
