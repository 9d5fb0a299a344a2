//! The translation, part by part.
ghost use Rattle.std.specs.Prelude.{◌≡◌, length, map, All, IfOk};
ghost use Rattle.rn_weighted.specs.Weighted.{IsWeighted, IsWArc, IsWTransition};
ghost use Rattle.rn_translated.specs.Translation.{translated, plain_place, plain_arc, arc_at};
ghost use Rattle.rn_translated.specs.Translation.{plain_transition, plain_net, black_token};
ghost use Rattle.rn_translated.specs.Translation.{black_expr, black_list, named};
ghost use Rattle.rn_translated.specs.TranslatedSystem.{flexible};

use rn_inscript::{PExpr, PForm, PInscribed, PInscription, PName};
use rn_items::{Items, NoMemory};
use rn_model::ArcKind;
use rn_net::{PConst, PConstForm, PKind, PKindForm, PNet, PPlace, PTransition, Plain};
use rn_notation::Spot;
use rn_value::{Str, copy_text};
use rn_weighted::{WArc, WPlace, WTransition, Weighted};
use std::alloc::Global;

/// The net text, in its plain form, that stands for a weighted net.
///
/// It is the net `main` with the same places, whose kind is `[]`, with as many black tokens, and
/// with the same transitions. An arc of weight k above 1 becomes a flexible arc with the list of k
/// black tokens. Since it isn't read from a text, each of its spots is the first of a text.
pub fn translate(alloc: Global, net: &Weighted) -> Result<Plain, NoMemory>
    requires weighted { IsWeighted net.now }
    ensures { IfOk result (λ plain. plain ≡ translated net.now) }
{
    let main = main_net(alloc, net)?;
    let mut nets = Vec::new(alloc);
    nets.push(main)?;
    Ok(Plain {
        notation: 1,
        channels: Items::new(alloc),
        nets: Items::from_vec(nets),
    })
}

fn main_net(alloc: Global, net: &Weighted) -> Result<PNet, NoMemory>
    requires weighted { IsWeighted net.now }
    ensures { IfOk result (λ plain. plain ≡ plain_net net.now) }
{
    let name = name_of(Str::from_string(String::from_str(alloc, "main")?));
    let mut places = Vec::with_capacity(alloc, net.places.len())?;
    for place in net.places.as_slice() {
        places.push(place_of(alloc, place)?)?;
    }
    let transitions = transitions_of(alloc, net.places.as_slice(), net.transitions.as_slice())?;
    Ok(PNet {
        name,
        vars: Items::new(alloc),
        places: Items::from_vec(places),
        transitions: Items::from_vec(transitions),
    })
}

fn name_of(text: Str) -> PName
    ensures { result ≡ named text }
{
    PName {
        text,
        spot: Spot { line: 1, column: 1 },
    }
}

fn place_of(alloc: Global, place: &WPlace) -> Result<PPlace, NoMemory>
    ensures { IfOk result (λ plain. plain ≡ plain_place place.now) }
{
    let name = name_of(copy_text(alloc, &place.name)?);
    let kind = PKind {
        form: PKindForm::Tuple(Items::new(alloc)),
        spot: Spot { line: 1, column: 1 },
    };
    let mut tokens = Vec::new(alloc);
    for _ in 0..place.initial {
        tokens.push(token(alloc))?;
    }
    Ok(PPlace {
        name,
        kind,
        initial: Items::from_vec(tokens),
        max: None,
    })
}

/// A black token.
fn token(alloc: Global) -> PConst
    ensures { result ≡ black_token }
{
    PConst {
        form: PConstForm::Tuple(Items::new(alloc)),
        spot: Spot { line: 1, column: 1 },
    }
}

fn transitions_of(
    alloc: Global,
    places: &[WPlace],
    transitions: &[WTransition],
) -> Result<Vec<PTransition>, NoMemory>
    requires weighted { All (IsWTransition (length places.now)) transitions.now }
    ensures { IfOk result
        (λ plain. plain.items ≡ map (plain_transition places.now) transitions.now) }
{
    let mut plain = Vec::with_capacity(alloc, transitions.len())?;
    for transition in transitions {
        plain.push(transition_of(alloc, places, transition)?)?;
    }
    Ok(plain)
}

fn transition_of(
    alloc: Global,
    places: &[WPlace],
    transition: &WTransition,
) -> Result<PTransition, NoMemory>
    requires weighted { IsWTransition (length places.now) transition.now }
    ensures { IfOk result (λ plain. plain ≡ plain_transition places.now transition.now) }
{
    let name = name_of(copy_text(alloc, &transition.name)?);
    let mut inscriptions = Vec::with_capacity(alloc, transition.arcs.len())?;
    for arc in transition.arcs.as_slice() {
        inscriptions.push(inscription_of(alloc, places, *arc)?)?;
    }
    Ok(PTransition {
        name,
        inscriptions: Items::from_vec(inscriptions),
    })
}

fn inscription_of(alloc: Global, places: &[WPlace], arc: WArc) -> Result<PInscription, NoMemory>
    requires weighted { IsWArc (length places.now) arc }
    ensures { IfOk result (λ plain. plain ≡ plain_arc places.now arc) }
{
    let place = name_of(copy_text(alloc, &places[arc.place as usize].name)?);
    let form = inscribed(alloc, place, arc)?;
    Ok(PInscription {
        form,
        spot: Spot { line: 1, column: 1 },
    })
}

/// The arc at a place of this name.
fn inscribed(alloc: Global, place: PName, arc: WArc) -> Result<PInscribed, NoMemory>
    ensures { IfOk result (λ form. form ≡ arc_at place arc) }
{
    if arc.weight > 1 {
        let kind = flexible_kind(arc.kind);
        let tokens = token_list(alloc, arc.weight)?;
        return Ok(PInscribed::Arc {
            kind,
            place,
            inscription: Some(tokens),
        });
    }
    Ok(PInscribed::Arc {
        kind: arc.kind,
        place,
        inscription: Some(token_expr(alloc)),
    })
}

/// The kind of an arc whose inscription is a list of tokens.
fn flexible_kind(kind: ArcKind) -> ArcKind
    ensures { result ≡ flexible kind }
{
    match kind {
        ArcKind::Input => ArcKind::FlexInput,
        ArcKind::Output => ArcKind::FlexOutput,
        other => other,
    }
}

/// A black token, as an expression.
fn token_expr(alloc: Global) -> PExpr
    ensures { result ≡ black_expr }
{
    PExpr {
        form: PForm::Tuple(Items::new(alloc)),
        spot: Spot { line: 1, column: 1 },
    }
}

/// The list of so many black tokens.
fn token_list(alloc: Global, weight: u32) -> Result<PExpr, NoMemory>
    ensures { IfOk result (λ list. list ≡ black_list weight) }
{
    let mut tokens = Vec::new(alloc);
    for _ in 0..weight {
        tokens.push(token_expr(alloc))?;
    }
    Ok(PExpr {
        form: PForm::List(Items::from_vec(tokens)),
        spot: Spot { line: 1, column: 1 },
    })
}
