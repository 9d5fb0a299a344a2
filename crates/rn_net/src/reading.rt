//! Reading a net text.
ghost use Rattle.std.specs.Prelude.{◌≡◌, IfErr, IfOk};
ghost use Rattle.rn_net.specs.link.Answers.{answer_of, report};
ghost use Rattle.rn_net.specs.Refusals.{Answers, IsReason, IsRefused, refusal_of};
ghost use Rattle.rn_net.specs.declared.plain.Plain.{Plain as System};
ghost use Rattle.rn_net.specs.declared.refusal.Refusal.{Refusal as Why};
ghost use Rattle.rn_net.specs.Texts.{Spells};

use crate::plain::Plain;
use crate::refusal::Refusal;
use crate::system_reader::system;
use rn_notation::limits::LONGEST_NET_TEXT;
use rn_notation::{LexFault, Spot, lex, token_laws};
use rn_reading::{TextFault, whole};
use std::alloc::Global;

fn refusal_of(fault: LexFault) -> Refusal
    ensures { result ≡ refusal_of fault }
{
    match fault {
        LexFault::P1(spot) => Refusal::P1(spot),
        LexFault::P3(spot) => Refusal::P3(spot),
        LexFault::P4(spot) => Refusal::P4(spot),
        LexFault::P7(spot) => Refusal::P7(spot),
    }
}

/// How it is reported that tokens are no system.
fn report(fault: TextFault) -> Refusal
    ensures { result ≡ report fault }
{
    match fault {
        TextFault::Stopped(spot) => Refusal::P2(spot),
        TextFault::TooFar(spot) => Refusal::P5(spot),
        TextFault::Lexical(fault) => refusal_of(fault),
        TextFault::NoMemory(no_memory) => Refusal::NoMemory(no_memory),
    }
}

/// The answer for a text, from that for its tokens.
fn answer_of(text: Result<Plain, TextFault>) -> Result<Plain, Refusal>
    ensures { result ≡ answer_of text }
{
    match text {
        Ok(plain) => Ok(plain),
        Err(fault) => Err(report(fault)),
    }
}

/// The system that a text spells, or why it spells none.
///
/// It recurses as deep as levels open, 64 at most.
pub fn read_system(alloc: Global, bytes: &[u8]) -> Result<Plain, Refusal>
    // What is returned is spelled by the text, and what is refused is refused for this reason.
    ensures read { IfOk result (λ plain. Spells bytes.now plain) }
    ensures refused { IfErr result (λ refusal. IsReason bytes.now refusal) }
    // Where the text spells a system, that is returned.
    ensures reads { (plain : System) → Spells bytes.now plain → Answers result (Ok plain) }
    // Where there is a reason to refuse the text, that is returned. So no text has two.
    ensures refuses { (why : Why) → IsRefused bytes.now why → Answers result (Err why) }
{
    // For its clauses: no text has two lists of tokens or two first faults, or one of each.
    token_laws();
    if bytes.len() > LONGEST_NET_TEXT {
        return Err(Refusal::P6(Spot { line: 1, column: 1 }));
    }
    let lexed = lex(alloc, bytes)?;
    let read = system(alloc, &lexed.tokens);
    let text = whole(&lexed, read);
    answer_of(text)
}
