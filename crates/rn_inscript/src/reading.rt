//! Reading one expression or one inscription among tokens.
ghost use Rattle.std.specs.Prelude.{◌≤◌, ℕ, length, IfErr, IfOk};
ghost use Rattle.rn_inscript.specs.Inscriptions.{IsInscription};
ghost use Rattle.rn_inscript.specs.Readings.{IsWholeExpr, IsReading, IsStopped, IsDeep, IsRefusal};
ghost use Rattle.rn_inscript.specs.Readings.{IsAnswer, IsWholeForm, Answers};
ghost use Rattle.rn_inscript.specs.declared.exprs.PExpr.{PExpr as Expression};
ghost use Rattle.rn_inscript.specs.declared.inscriptions.PInscription.{PInscription as Inscription};

use crate::cursor::Seen;
use crate::expressions::expr;
use crate::exprs::PExpr;
use crate::fault::InscriptFault;
use crate::forms::inscribed;
use crate::inscriptions::{PInscribed, PInscription};
use rn_model::limits::MOST_NESTED;
use rn_notation::Tokens;
use rn_reading::next;
use std::alloc::Global;

fn expr_at(alloc: Global, tokens: &Tokens, at: usize) -> Result<(PExpr, usize), InscriptFault>
    requires { at ≤ length tokens.now }
    ensures { IsAnswer IsWholeExpr tokens.now at result }
{
    let seen = Seen { at, operators: 0 };
    let (e, end) = expr(alloc, tokens, seen, MOST_NESTED)?;
    Ok((e, end.at))
}

fn form_at(alloc: Global, tokens: &Tokens, at: usize) -> Result<(PInscribed, usize), InscriptFault>
    requires { at ≤ length tokens.now }
    ensures { IsAnswer IsWholeForm tokens.now at result }
{
    let seen = Seen { at, operators: 0 };
    let (form, end) = inscribed(alloc, tokens, seen)?;
    Ok((form, end.at))
}

fn inscription_at(
    alloc: Global,
    tokens: &Tokens,
    at: usize,
) -> Result<(PInscription, usize), InscriptFault>
    requires { at ≤ length tokens.now }
    ensures { IsAnswer IsInscription tokens.now at result }
{
    let (form, end) = form_at(alloc, tokens, at)?;
    match next(tokens, at) {
        Some(token) => Ok((
            PInscription {
                form,
                spot: token.spot,
            },
            end,
        )),
        None => Err(InscriptFault::P2(at)),
    }
}

/// The expression that begins at an index, and the index after it.
///
/// Tokens are taken as long as those taken are a prefix of some expression. It recurses as deep as
/// levels open, 64 at most.
#[tactic(auto, using(crate::proofs::ReadingFacts::answers))]
pub fn read_expr(alloc: Global, tokens: &Tokens, at: usize) -> Result<(PExpr, usize), InscriptFault>
    requires { at ≤ length tokens.now }
    // What is returned is the longest reading, and what is refused is refused for this reason.
    ensures read { IfOk result (λ found. IsReading IsWholeExpr tokens.now at found.0 found.1) }
    ensures refused { IfErr result (λ fault. IsRefusal IsWholeExpr tokens.now at fault) }
    // The longest reading is returned, and each reason refuses.
    ensures reads { (e : Expression) (end : ℕ) → IsReading IsWholeExpr tokens.now at e end →
        Answers result (Ok (e, end)) }
    ensures stops { (k : ℕ) → IsStopped IsWholeExpr tokens.now at k →
        Answers result (Err (InscriptFault.P2 k)) }
    ensures goes_too_far { (k : ℕ) → IsDeep IsWholeExpr tokens.now at k →
        Answers result (Err (InscriptFault.P5 k)) }
{
    expr_at(alloc, tokens, at)
}

/// The inscription that begins at an index, and the index after it. The token after it, such as
/// `;`, isn't taken.
///
/// Tokens are taken as long as those taken are a prefix of some inscription.
#[tactic(auto, using(crate::proofs::ReadingFacts::answers))]
pub fn read_transition_inscription(
    alloc: Global,
    tokens: &Tokens,
    at: usize,
) -> Result<(PInscription, usize), InscriptFault>
    requires { at ≤ length tokens.now }
    // What is returned is the longest reading, and what is refused is refused for this reason.
    ensures read { IfOk result (λ found. IsReading IsInscription tokens.now at found.0 found.1) }
    ensures refused { IfErr result (λ fault. IsRefusal IsInscription tokens.now at fault) }
    // The longest reading is returned, and each reason refuses.
    ensures reads { (i : Inscription) (end : ℕ) → IsReading IsInscription tokens.now at i end →
        Answers result (Ok (i, end)) }
    ensures stops { (k : ℕ) → IsStopped IsInscription tokens.now at k →
        Answers result (Err (InscriptFault.P2 k)) }
    ensures goes_too_far { (k : ℕ) → IsDeep IsInscription tokens.now at k →
        Answers result (Err (InscriptFault.P5 k)) }
{
    inscription_at(alloc, tokens, at)
}
