//! Reading the text of a weighted net.
ghost use Rattle.std.specs.Prelude.{◌≡◌, ◌≢◌, IfErr, IfOk};
ghost use Rattle.rn_notation.specs.declared.token.Spot.{Spot as Where};
ghost use Rattle.rn_reading.specs.Counting.{uncounted};
ghost use Rattle.rn_reading.specs.Texts.{Settles};
ghost use Rattle.rn_reading.specs.declared.fault.TextFault.TheVariants.{TooFar as TooDeep};
ghost use Rattle.rn_weighted.specs.Weighted.{IsWeighted};
ghost use Rattle.rn_weighted.specs.declared.weighted.Weighted.{Weighted as Net};
ghost use Rattle.rn_pt.specs.declared.fault.PtFault.{PtFault as Why};
ghost use Rattle.rn_pt.specs.link.Answers.{Comes, Meets, report_text};
ghost use Rattle.rn_pt.specs.Grammar.{IsPtNet};
ghost use Rattle.rn_pt.specs.Texts.{Answers, IsReason, IsRefused, Spells, report_lexical};

use crate::checking::check;
use crate::fault::PtFault;
use crate::meaning::weighted_of;
use crate::net_reader::net;
use crate::plain::PtNet;
use rn_notation::limits::LONGEST_NET_TEXT;
use rn_notation::{LexFault, Lexed, Spot, lex, token_laws};
use rn_reading::{TextFault, whole};
use rn_weighted::{Weighted, has_text_within};
use std::alloc::Global;

/// What the tokens of a text say, or why they are no weighted net.
fn read_plain(alloc: Global, lexed: &Lexed) -> Result<PtNet, TextFault>
    ensures { Settles uncounted tt IsPtNet lexed.now result }
{
    whole(lexed, net(alloc, &lexed.tokens))
}

fn report_lexical(fault: LexFault) -> PtFault
    ensures { result ≡ report_lexical fault }
{
    match fault {
        LexFault::P1(spot) => PtFault::P1(spot),
        LexFault::P3(spot) => PtFault::P3(spot),
        LexFault::P4(spot) => PtFault::P4(spot),
        LexFault::P7(spot) => PtFault::P7(spot),
    }
}

/// How it is reported that tokens are no net. None of them goes too far, as nothing is counted.
fn report_text(fault: TextFault) -> PtFault
    requires { (spot : Where) → fault ≢ TooDeep spot }
    ensures { result ≡ report_text fault }
{
    match fault {
        TextFault::Stopped(spot) => PtFault::N1(spot),
        TextFault::TooFar(_) => unreachable!(),
        TextFault::Lexical(fault) => report_lexical(fault),
        TextFault::NoMemory(no_memory) => PtFault::NoMemory(no_memory),
    }
}

/// The weighted net that a text says, or why it is refused.
fn accepted(alloc: Global, net: &PtNet) -> Result<Weighted, PtFault>
    ensures { Meets net.now result }
{
    let (first, table) = check(alloc, net)?;
    if let Some(broken) = first.broken {
        return Err(broken.report());
    }
    let weighted = weighted_of(alloc, &table, net)?;
    if !has_text_within(&weighted, LONGEST_NET_TEXT) {
        return Err(PtFault::N5(Spot { line: 1, column: 1 }));
    }
    Ok(weighted)
}

/// What the tokens of a text come to.
fn settled(alloc: Global, lexed: &Lexed) -> Result<Weighted, PtFault>
    ensures { Comes lexed.now result }
{
    match read_plain(alloc, lexed) {
        Ok(plain) => accepted(alloc, &plain),
        Err(fault) => Err(report_text(fault)),
    }
}

/// The weighted net that a text spells, or why it spells none.
pub fn read_pt(alloc: Global, bytes: &[u8]) -> Result<Weighted, PtFault>
    // What is returned is spelled by the text, and what is refused is refused for this reason.
    ensures read { IfOk result (λ net. Spells bytes.now net) }
    ensures refused { IfErr result (λ why. IsReason bytes.now why) }
    // What is returned is as a weighted net has to be.
    ensures weighted { IfOk result IsWeighted }
    // Where the text spells a net, that is returned.
    ensures reads { (net : Net) → Spells bytes.now net → Answers result (Ok net) }
    // Where there is a reason to refuse the text, that is returned.
    ensures refuses { (why : Why) → IsRefused bytes.now why → Answers result (Err why) }
{
    // For its clauses: no text has two lists of tokens or two first faults, or one of each.
    token_laws();
    if bytes.len() > LONGEST_NET_TEXT {
        return Err(PtFault::P6(Spot { line: 1, column: 1 }));
    }
    let lexed = lex(alloc, bytes)?;
    settled(alloc, &lexed)
}
