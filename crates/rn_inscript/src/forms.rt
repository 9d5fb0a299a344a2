//! Reading the forms of inscriptions.
ghost use Rattle.std.specs.Prelude.{◌≡◌, ◌+◌, ◌≤◌, [], Some, length, MatchOption, MatchResult};
ghost use Rattle.rn_notation.specs.declared.token.TokenKind.TheVariants as Kind;
ghost use Rattle.rn_notation.specs.StoredTokens.{lent};
ghost use Rattle.rn_inscript.specs.Inscriptions.{IsInscribed, IsCall, absent};
ghost use Rattle.rn_inscript.specs.Signs.{arc_of, target_of, guard_word, action_word, colon, new_word};
ghost use Rattle.rn_inscript.specs.Signs.{this_word};
ghost use Rattle.rn_inscript.specs.link.NextNames.{IsNotNextKind, IsNextName, IsNoName, IsEquality};
ghost use Rattle.rn_inscript.specs.link.NextNames.{IsNoCreation};
ghost use Rattle.rn_reading.specs.link.Stages.{IsNext};
ghost use Rattle.rn_inscript.specs.link.Stages.{Reads, MovesOn, or_strength, IsNextKind, past};

use crate::conditions::cond;
use crate::cursor::{Read, Seen, expect_sign, past_sign};
use crate::expressions::{expr, listed};
use crate::exprs::{PExpr, PExprs, PForm};
use crate::inscriptions::{PInscribed, PName};
use rn_items::Items;
use rn_model::ArcKind;
use rn_model::limits::MOST_NESTED;
use rn_notation::{Spot, TokenKind, TokenRef, Tokens, sign, word};
use rn_reading::{ReadFault, next};
use rn_value::{Str, copy_text};
use std::alloc::Global;

/// Past this reserved word, where it is next.
fn past_word(tokens: &Tokens, seen: Seen, wanted: u32) -> Option<Seen>
    ensures { MatchOption result
        (IsNotNextKind tokens.now seen.at (Kind.Word wanted))
        (λ after. IsNextKind tokens.now seen.at (Kind.Word wanted) × (after ≡ past seen)) }
{
    match next(tokens, seen.at)?.kind {
        TokenKind::Word(other) if *other == wanted => Some(seen.past(tokens)),
        _ => None,
    }
}

/// A name, which has to be next.
fn expect_name(alloc: Global, tokens: &Tokens, seen: Seen) -> Read<PName>
    ensures { MatchResult result
        (λ found. IsNextName tokens.now seen.at found.0 × (found.1 ≡ past seen))
        (λ fault. IsNoName tokens.now seen.at fault) }
{
    match next(tokens, seen.at) {
        Some(token) => match token.kind {
            TokenKind::Name(name) => {
                let text = copy_text(alloc, name)?;
                let spot = token.spot;
                Ok((PName { text, spot }, seen.past(tokens)))
            }
            _ => Err(ReadFault::Stopped(seen.at)),
        },
        None => Err(ReadFault::Stopped(seen.at)),
    }
}

fn arc_of(kind: &TokenKind) -> Option<ArcKind>
    ensures { result ≡ arc_of kind.now }
{
    match kind {
        TokenKind::Word(word::IN) => Some(ArcKind::Input),
        TokenKind::Word(word::OUT) => Some(ArcKind::Output),
        TokenKind::Word(word::TEST) => Some(ArcKind::Test),
        TokenKind::Word(word::RESERVE) => Some(ArcKind::Reserve),
        TokenKind::Word(word::FLEXIN) => Some(ArcKind::FlexInput),
        TokenKind::Word(word::FLEXOUT) => Some(ArcKind::FlexOutput),
        TokenKind::Word(word::INHIBIT) => Some(ArcKind::Inhibit),
        TokenKind::Word(word::CLEAR) => Some(ArcKind::Clear),
        _ => None,
    }
}

/// What stands for an absent inscription.
fn absent(alloc: Global, kind: ArcKind, spot: Spot) -> Option<PExpr>
    ensures { result ≡ absent kind spot }
{
    match kind {
        ArcKind::FlexInput | ArcKind::FlexOutput | ArcKind::Clear => None,
        _ => Some(PExpr {
            form: PForm::Tuple(Items::new(alloc)),
            spot,
        }),
    }
}

/// `in p` and the like, with an inscription or without one.
fn arc(
    alloc: Global,
    tokens: &Tokens,
    seen: Seen,
    token: TokenRef<'_>,
    kind: ArcKind,
) -> Read<PInscribed>
    requires next { IsNext tokens.now seen.at (lent token) }
    requires kind { arc_of token.kind.now ≡ Some kind }
    ensures moved { MovesOn tokens.now seen result }
    ensures reads { Reads 0 IsInscribed tokens.now seen [] result }
{
    let (place, after) = expect_name(alloc, tokens, seen.past(tokens))?;
    match past_sign(tokens, after, sign::COLON) {
        Some(start) => {
            let (e, end) = expr(alloc, tokens, start, MOST_NESTED)?;
            Ok((
                PInscribed::Arc {
                    kind,
                    place,
                    inscription: Some(e),
                },
                end,
            ))
        }
        None => {
            let inscription = absent(alloc, kind, place.spot);
            Ok((
                PInscribed::Arc {
                    kind,
                    place,
                    inscription,
                },
                after,
            ))
        }
    }
}

/// `guard c`
fn guard(alloc: Global, tokens: &Tokens, seen: Seen, token: TokenRef<'_>) -> Read<PInscribed>
    requires next { IsNext tokens.now seen.at (lent token) }
    requires kind { token.kind.now ≡ guard_word }
    ensures moved { MovesOn tokens.now seen result }
    ensures reads { Reads 0 IsInscribed tokens.now seen [] result }
{
    let (condition, end) = cond(alloc, tokens, seen.past(tokens), MOST_NESTED)?;
    Ok((PInscribed::Guard(condition), end))
}

/// `action print e` or `action v = e`
fn action(alloc: Global, tokens: &Tokens, seen: Seen, token: TokenRef<'_>) -> Read<PInscribed>
    requires next { IsNext tokens.now seen.at (lent token) }
    requires kind { token.kind.now ≡ action_word }
    ensures moved { MovesOn tokens.now seen result }
    ensures reads { Reads 0 IsInscribed tokens.now seen [] result }
{
    let after = seen.past(tokens);
    if let Some(start) = past_word(tokens, after, word::PRINT) {
        let (e, end) = expr(alloc, tokens, start, MOST_NESTED)?;
        return Ok((PInscribed::Print(e), end));
    }
    let (var, after_var) = expect_name(alloc, tokens, after)?;
    let start = expect_sign(tokens, after_var, sign::EQUALS)?;
    let (value, end) = expr(alloc, tokens, start, MOST_NESTED)?;
    Ok((PInscribed::Set { var, value }, end))
}

/// `ch(e1,e2)`
fn call(alloc: Global, tokens: &Tokens, seen: Seen) -> Read<(PName, PExprs)>
    requires { seen.at ≤ length tokens.now }
    ensures moved { MovesOn tokens.now seen result }
    ensures reads { Reads or_strength IsCall tokens.now seen [] result }
{
    let (channel, after) = expect_name(alloc, tokens, seen)?;
    let inside = expect_sign(tokens, after, sign::LEFT_PAREN)?;
    let (args, end) = listed(alloc, tokens, inside, MOST_NESTED - 1, sign::RIGHT_PAREN)?;
    Ok(((channel, args), end))
}

/// `:ch(e1,e2)`
fn uplink(alloc: Global, tokens: &Tokens, seen: Seen, token: TokenRef<'_>) -> Read<PInscribed>
    requires next { IsNext tokens.now seen.at (lent token) }
    requires kind { token.kind.now ≡ colon }
    ensures moved { MovesOn tokens.now seen result }
    ensures reads { Reads 0 IsInscribed tokens.now seen [] result }
{
    let ((channel, args), end) = call(alloc, tokens, seen.past(tokens))?;
    Ok((PInscribed::Uplink { channel, args }, end))
}

/// `x: new n`, of which `new` is next.
fn creation(
    alloc: Global,
    tokens: &Tokens,
    seen: Seen,
    token: TokenRef<'_>,
    name: &Str,
) -> Read<PInscribed>
    requires next { IsNext tokens.now seen.at (lent token) }
    requires kind { token.kind.now ≡ Kind.Name name.now }
    requires follows { IsNextKind tokens.now (seen.at + 1) colon }
    requires new { IsNextKind tokens.now (seen.at + 1 + 1) new_word }
    ensures moved { MovesOn tokens.now seen result }
    ensures reads { Reads 0 IsInscribed tokens.now seen [] result }
{
    let (net, end) = expect_name(alloc, tokens, seen.past(tokens).past(tokens).past(tokens))?;
    let text = copy_text(alloc, name)?;
    let spot = token.spot;
    let var = PName { text, spot };
    Ok((PInscribed::New { var, net }, end))
}

/// `x:ch(e1,e2)` or `this:ch(e1,e2)`
fn downlink(
    alloc: Global,
    tokens: &Tokens,
    seen: Seen,
    token: TokenRef<'_>,
    form: PForm,
) -> Read<PInscribed>
    requires next { IsNext tokens.now seen.at (lent token) }
    requires kind { target_of token.kind.now ≡ Some form }
    requires follows { IsNextKind tokens.now (seen.at + 1) colon }
    requires other { IsNoCreation tokens.now (seen.at + 1 + 1) (lent token) }
    ensures moved { MovesOn tokens.now seen result }
    ensures reads { Reads 0 IsInscribed tokens.now seen [] result }
{
    let ((channel, args), end) = call(alloc, tokens, seen.past(tokens).past(tokens))?;
    let spot = token.spot;
    let target = PExpr { form, spot };
    Ok((
        PInscribed::Downlink {
            target,
            channel,
            args,
        },
        end,
    ))
}

/// `e1 = e2`
fn equality(alloc: Global, tokens: &Tokens, seen: Seen) -> Read<PInscribed>
    requires { seen.at ≤ length tokens.now }
    ensures moved { MovesOn tokens.now seen result }
    ensures reads { Reads 0 IsEquality tokens.now seen [] result }
{
    let (left, after) = expr(alloc, tokens, seen, MOST_NESTED)?;
    let start = expect_sign(tokens, after, sign::EQUALS)?;
    let (right, end) = expr(alloc, tokens, start, MOST_NESTED)?;
    Ok((PInscribed::Equality(left, right), end))
}

/// An inscription that begins with a name.
fn by_name(
    alloc: Global,
    tokens: &Tokens,
    seen: Seen,
    token: TokenRef<'_>,
    name: &Str,
) -> Read<PInscribed>
    requires next { IsNext tokens.now seen.at (lent token) }
    requires kind { token.kind.now ≡ Kind.Name name.now }
    ensures moved { MovesOn tokens.now seen result }
    ensures reads { Reads 0 IsInscribed tokens.now seen [] result }
{
    match past_sign(tokens, seen.past(tokens), sign::COLON) {
        Some(after) => match past_word(tokens, after, word::NEW) {
            Some(_) => creation(alloc, tokens, seen, token, name),
            None => {
                let form = PForm::Name(copy_text(alloc, name)?);
                downlink(alloc, tokens, seen, token, form)
            }
        },
        None => equality(alloc, tokens, seen),
    }
}

/// An inscription that begins with `this`.
fn by_this(alloc: Global, tokens: &Tokens, seen: Seen, token: TokenRef<'_>) -> Read<PInscribed>
    requires next { IsNext tokens.now seen.at (lent token) }
    requires kind { token.kind.now ≡ this_word }
    ensures moved { MovesOn tokens.now seen result }
    ensures reads { Reads 0 IsInscribed tokens.now seen [] result }
{
    match past_sign(tokens, seen.past(tokens), sign::COLON) {
        Some(_) => downlink(alloc, tokens, seen, token, PForm::This),
        None => equality(alloc, tokens, seen),
    }
}

/// An inscription that begins with a reserved word.
fn by_word(
    alloc: Global,
    tokens: &Tokens,
    seen: Seen,
    token: TokenRef<'_>,
    number: u32,
) -> Read<PInscribed>
    requires next { IsNext tokens.now seen.at (lent token) }
    requires kind { token.kind.now ≡ Kind.Word number }
    ensures moved { MovesOn tokens.now seen result }
    ensures reads { Reads 0 IsInscribed tokens.now seen [] result }
{
    if let Some(kind) = arc_of(token.kind) {
        arc(alloc, tokens, seen, token, kind)
    } else if number == word::GUARD {
        guard(alloc, tokens, seen, token)
    } else if number == word::ACTION {
        action(alloc, tokens, seen, token)
    } else if number == word::THIS {
        by_this(alloc, tokens, seen, token)
    } else {
        Err(ReadFault::Stopped(seen.at))
    }
}

/// The form of an inscription.
#[tactic(auto, using(crate::proofs::LinkReading::no_token))]
pub(crate) fn inscribed(alloc: Global, tokens: &Tokens, seen: Seen) -> Read<PInscribed>
    requires { seen.at ≤ length tokens.now }
    ensures moved { MovesOn tokens.now seen result }
    ensures reads { Reads 0 IsInscribed tokens.now seen [] result }
{
    match next(tokens, seen.at) {
        Some(token) => match token.kind {
            TokenKind::Name(name) => by_name(alloc, tokens, seen, token, name),
            TokenKind::Word(number) => by_word(alloc, tokens, seen, token, *number),
            TokenKind::Sign(number) => {
                if *number == sign::COLON {
                    uplink(alloc, tokens, seen, token)
                } else {
                    equality(alloc, tokens, seen)
                }
            }
            TokenKind::Number(_) => equality(alloc, tokens, seen),
            TokenKind::Text(_) => equality(alloc, tokens, seen),
        },
        None => Err(ReadFault::Stopped(seen.at)),
    }
}
