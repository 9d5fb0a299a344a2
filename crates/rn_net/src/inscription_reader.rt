//! Reading the inscriptions of transitions.
ghost use Rattle.std.specs.Prelude.{◌≡◌, ◌+◌, ◌-◌, ◌≤◌, ◌∷◌, length, map, IfErr, IfOk, MatchOption};
ghost use Rattle.rn_reading.specs.link.Stages.{MovesOn};
ghost use Rattle.rn_inscript.specs.Levels.{Count};
ghost use Rattle.rn_inscript.specs.link.NextNames.{IsNotNextKind};
ghost use Rattle.rn_inscript.specs.Inscriptions.{IsInscription};
ghost use Rattle.rn_inscript.specs.Readings.{IsReading, IsWholeExpr};
ghost use Rattle.rn_inscript.specs.Signs.{close_brace};
ghost use Rattle.rn_net.specs.Levels.Region.{between, inscribing};
ghost use Rattle.rn_net.specs.link.Lists.{AreFurtherUpTo, AreInscribedUpTo};
ghost use Rattle.rn_net.specs.Nets.{further_arc};
ghost use Rattle.rn_net.specs.link.Parts.{AreInscriptionsUpTo, EndsStatement, IsOpen, NotOpen};
ghost use Rattle.rn_net.specs.link.Progress.{Reads, Refuses};

use crate::cursor::{expect_sign, past_sign};
use crate::plain::PInscriptions;
use rn_inscript::{
    InscriptFault, PExpr, PExprs, PInscribed, PInscription, PName, read_expr,
    read_transition_inscription, reading_laws,
};
use rn_items::Items;
use rn_model::ArcKind;
use rn_notation::{Tokens, sign};
use rn_reading::ReadFault;
use rn_value::{NoMemory, copy_text};
use std::alloc::Global;

/// The kind and the place of an arc between two indexes, where more inscriptions may follow: in
/// notation 2, after one that is in the text. An arc without one has two tokens.
fn open_arc(
    inscription: &PInscription,
    at: usize,
    after: usize,
    notation: u32,
) -> Option<(ArcKind, &PName)>
    requires { at ≤ after }
    ensures { MatchOption result
        (NotOpen notation (after - at) inscription.now)
        (λ arc. IsOpen notation (after - at) inscription.now arc.0 arc.1.now) }
{
    let length = after - at;
    if notation != 2 || length <= 2 {
        return None;
    }
    match &inscription.form {
        PInscribed::Arc {
            kind,
            place,
            inscription: Some(_),
        } => Some((*kind, place)),
        _ => None,
    }
}

/// One more arc of this kind and place.
fn further_arc(
    alloc: Global,
    kind: ArcKind,
    place: &PName,
    inscription: PExpr,
) -> Result<PInscription, NoMemory>
    ensures { IfOk result (λ arc. arc ≡ further_arc kind place.now inscription) }
{
    let place = PName {
        text: copy_text(alloc, &place.text)?,
        spot: place.spot,
    };
    let spot = inscription.spot;
    Ok(PInscription {
        form: PInscribed::Arc {
            kind,
            place,
            inscription: Some(inscription),
        },
        spot,
    })
}

/// An arc of this kind and place for each of these inscriptions.
fn further_arcs(
    alloc: Global,
    kind: ArcKind,
    place: &PName,
    more: PExprs,
) -> Result<PInscriptions, NoMemory>
    ensures { IfOk result (λ arcs. arcs ≡ map (further_arc kind place.now) more) }
{
    let mut arcs = Items::new(alloc);
    for inscription in more.into_vec() {
        arcs.push(further_arc(alloc, kind, place, inscription)?)?;
    }
    Ok(arcs)
}

/// An inscription, and others after it.
fn with_others(
    alloc: Global,
    first: PInscription,
    others: PInscriptions,
) -> Result<PInscriptions, NoMemory>
    ensures { IfOk result (λ all. all ≡ first ∷ others) }
{
    let mut all = Vec::new(alloc);
    all.push(first)?;
    let mut others = others.into_vec();
    all.append(&mut others)?;
    Ok(Items::from_vec(all))
}

/// The expression that begins at an index, and the index after it.
fn expression(alloc: Global, tokens: &Tokens, at: usize) -> Result<(PExpr, usize), ReadFault>
    requires { at ≤ length tokens.now }
    ensures read { IfOk result (λ found. IsReading IsWholeExpr tokens.now at found.0 found.1) }
    ensures refused { IfErr result (λ fault. Refuses IsWholeExpr tokens.now at fault) }
{
    match read_expr(alloc, tokens, at) {
        Ok(found) => Ok(found),
        Err(InscriptFault::P2(k)) => Err(ReadFault::Stopped(k)),
        Err(InscriptFault::P5(k)) => Err(ReadFault::TooFar(k)),
        Err(InscriptFault::NoMemory(no_memory)) => Err(ReadFault::NoMemory(no_memory)),
    }
}

/// The inscription that begins at an index, and the index after it.
fn inscription(
    alloc: Global,
    tokens: &Tokens,
    at: usize,
) -> Result<(PInscription, usize), ReadFault>
    requires { at ≤ length tokens.now }
    ensures read { IfOk result (λ found. IsReading IsInscription tokens.now at found.0 found.1) }
    ensures refused { IfErr result (λ fault. Refuses IsInscription tokens.now at fault) }
{
    match read_transition_inscription(alloc, tokens, at) {
        Ok(found) => Ok(found),
        Err(InscriptFault::P2(k)) => Err(ReadFault::Stopped(k)),
        Err(InscriptFault::P5(k)) => Err(ReadFault::TooFar(k)),
        Err(InscriptFault::NoMemory(no_memory)) => Err(ReadFault::NoMemory(no_memory)),
    }
}

/// The other inscriptions of an arc, each after a comma, up to and past the semicolon.
fn further_up_to(alloc: Global, tokens: &Tokens, at: usize) -> Result<(PExprs, usize), ReadFault>
    requires { at ≤ length tokens.now }
    ensures moved { MovesOn tokens.now at result }
    ensures reads { (c : Count) →
        Reads AreFurtherUpTo tokens.now at (inscribing 0 c) between result }
{
    // For its clause: tokens stand for one expression at most.
    reading_laws();
    let mut all = Vec::new(alloc);
    let mut now = at;
    while let Some((_, next)) = past_sign(tokens, now, sign::COMMA) {
        let (more, after) = expression(alloc, tokens, next)?;
        all.push(more)?;
        now = after;
    }
    let (_, end) = expect_sign(tokens, now, sign::SEMICOLON)?;
    Ok((Items::from_vec(all), end))
}

/// The arcs that an inscription between two indexes stands for beside itself, up to and past the
/// semicolon.
fn others_up_to(
    alloc: Global,
    tokens: &Tokens,
    first: &PInscription,
    at: usize,
    after: usize,
    notation: u32,
) -> Result<(PInscriptions, usize), ReadFault>
    requires before { at ≤ after }
    requires inside { after ≤ length tokens.now }
    ensures moved { MovesOn tokens.now after result }
    ensures reads { EndsStatement notation (after - at) first.now tokens.now after result }
{
    if let Some((kind, place)) = open_arc(first, at, after, notation) {
        let (more, end) = further_up_to(alloc, tokens, after)?;
        let others = further_arcs(alloc, kind, place, more)?;
        return Ok((others, end));
    }
    let (_, end) = expect_sign(tokens, after, sign::SEMICOLON)?;
    Ok((Items::new(alloc), end))
}

/// What stands before a semicolon, and the semicolon.
fn inscribed(
    alloc: Global,
    tokens: &Tokens,
    at: usize,
    notation: u32,
) -> Result<(PInscriptions, usize), ReadFault>
    requires inside { at ≤ length tokens.now }
    requires other { IsNotNextKind tokens.now at close_brace }
    ensures moved { MovesOn tokens.now (at + 1) result }
    ensures reads { Reads (AreInscribedUpTo notation) tokens.now at between between result }
{
    // For its clause: tokens stand for one inscription at most.
    reading_laws();
    let (first, after) = inscription(alloc, tokens, at)?;
    let (others, end) = others_up_to(alloc, tokens, &first, at, after, notation)?;
    let all = with_others(alloc, first, others)?;
    Ok((all, end))
}

/// Inscriptions, up to and past the closing brace.
pub(crate) fn inscriptions_up_to(
    alloc: Global,
    tokens: &Tokens,
    at: usize,
    notation: u32,
) -> Result<(PInscriptions, usize), ReadFault>
    requires { at ≤ length tokens.now }
    ensures moved { MovesOn tokens.now at result }
    ensures reads { Reads (AreInscriptionsUpTo notation) tokens.now at between between result }
{
    let mut all = Vec::new(alloc);
    let mut now = at;
    'inscriptions: loop {
        if let Some((_, end)) = past_sign(tokens, now, sign::RIGHT_BRACE) {
            all.shrink_to_fit();
            return Ok((Items::from_vec(all), end));
        }
        let (more, after) = inscribed(alloc, tokens, now, notation)?;
        let mut more = more.into_vec();
        all.append(&mut more)?;
        now = after;
    }
}
