//! From bytes to the system of a net text, or the line of its refusal.
ghost use Rattle.std.specs.Prelude.{◌≡◌, ℕ, List, IfOk, IfErr};
ghost use Rattle.rn_items.specs.Memory.{no_memory};
ghost use Rattle.rn_net.specs.Texts.{IsNotation, Spells};
ghost use Rattle.rn_model.specs.Good.{Good};
ghost use Rattle.rn_check.specs.Checked.{Checked};
ghost use Rattle.rn_answering.specs.Lines.{spot_line};
ghost use Rattle.rn_answering.specs.NetTexts.{Accepted, AcceptedIn, RefusesNet, RefusesPlain};
ghost use Rattle.rn_answering.specs.NetTexts.{text_line, check_line};
ghost use Rattle.rn_answering.specs.Refusing.{Stops, refusal};

use crate::answer::refused;
use crate::lines::spot_line;
use crate::status::NET_REFUSED;
use crate::stopped::Stopped;
use rn_check::{CheckFault, check_system};
use rn_model::System;
use rn_net::{Plain, Refusal, net_laws, read_system};
use rn_notation::Spot;
use std::alloc::Global;

/// The refusal of a text of nets, by a code and a spot.
pub fn refused_at(alloc: Global, code: &[u8], spot: Spot) -> Stopped
    ensures { Stops (λ a. a ≡ refusal NET_REFUSED (spot_line code.now spot)) result }
{
    match spot_line(alloc, code, spot) {
        Ok(line) => Stopped::Refused(refused(alloc, NET_REFUSED, line)),
        Err(no_memory) => Stopped::NoMemory(no_memory),
    }
}

// The refusal of a text that spells no system.
fn refused_text(alloc: Global, why: Refusal) -> Stopped
    ensures line { Stops (λ a. a ≡ refusal NET_REFUSED (text_line why)) result }
    ensures memory { why ≡ Refusal.NoMemory no_memory → result ≡ Stopped.NoMemory no_memory }
{
    match why {
        Refusal::P1(spot) => refused_at(alloc, b"P1", spot),
        Refusal::P2(spot) => refused_at(alloc, b"P2", spot),
        Refusal::P3(spot) => refused_at(alloc, b"P3", spot),
        Refusal::P4(spot) => refused_at(alloc, b"P4", spot),
        Refusal::P5(spot) => refused_at(alloc, b"P5", spot),
        Refusal::P6(spot) => refused_at(alloc, b"P6", spot),
        Refusal::P7(spot) => refused_at(alloc, b"P7", spot),
        Refusal::NoMemory(no_memory) => Stopped::NoMemory(no_memory),
    }
}

// The refusal of a plain form in which a rule is broken.
fn refused_plain(alloc: Global, fault: CheckFault) -> Stopped
    ensures line { Stops (λ a. a ≡ refusal NET_REFUSED (check_line fault)) result }
    ensures memory { fault ≡ CheckFault.NoMemory no_memory → result ≡ Stopped.NoMemory no_memory }
{
    match fault {
        CheckFault::C1(spot) => refused_at(alloc, b"C1", spot),
        CheckFault::C2(spot) => refused_at(alloc, b"C2", spot),
        CheckFault::C3(spot) => refused_at(alloc, b"C3", spot),
        CheckFault::C4(spot) => refused_at(alloc, b"C4", spot),
        CheckFault::C5(spot) => refused_at(alloc, b"C5", spot),
        CheckFault::C6(spot) => refused_at(alloc, b"C6", spot),
        CheckFault::C7(spot) => refused_at(alloc, b"C7", spot),
        CheckFault::C8(spot) => refused_at(alloc, b"C8", spot),
        CheckFault::C9(spot) => refused_at(alloc, b"C9", spot),
        CheckFault::C10(spot) => refused_at(alloc, b"C10", spot),
        CheckFault::C11(spot) => refused_at(alloc, b"C11", spot),
        CheckFault::C12(spot) => refused_at(alloc, b"C12", spot),
        CheckFault::C13(spot) => refused_at(alloc, b"C13", spot),
        CheckFault::NoMemory(no_memory) => Stopped::NoMemory(no_memory),
    }
}

/// The plain form that a text spells.
#[tactic(auto, using(crate::proofs::Causes::refusals))]
pub fn plain_of(alloc: Global, bytes: &[u8]) -> Result<Plain, Stopped>
    ensures spells { IfOk result (λ plain. Spells bytes.now plain) }
    ensures notation { IfOk result (λ plain. IsNotation plain.notation) }
    ensures refused { IfErr result (Stops (RefusesNet bytes.now)) }
{
    net_laws();
    match read_system(alloc, bytes) {
        Ok(plain) => Ok(plain),
        Err(why) => Err(refused_text(alloc, why)),
    }
}

/// The system that a plain form means.
#[tactic(auto, using(crate::proofs::Causes::refusals))]
pub fn checked(alloc: Global, plain: Plain) -> Result<System, Stopped>
    ensures checked { IfOk result (λ system. Checked plain system) }
    ensures good { IfOk result (λ system. (text : List ℕ) → Spells text plain → Good system) }
    ensures refused { IfErr result (Stops (RefusesPlain plain)) }
{
    match check_system(alloc, plain) {
        Ok(system) => Ok(system),
        Err(fault) => Err(refused_plain(alloc, fault)),
    }
}

/// A net text that is accepted: its system, and its notation, which is 1 or 2.
#[derive(Debug, Drop)]
pub struct AcceptedNet {
    pub system: System,
    pub notation: u32,
}

/// The system of a net text, and its notation.
#[tactic(auto, using(crate::proofs::Causes::refusals))]
pub fn net_of(alloc: Global, bytes: &[u8]) -> Result<AcceptedNet, Stopped>
    ensures accepted { IfOk result (λ net. AcceptedIn net.notation bytes.now net.system) }
    ensures good { IfOk result (λ net. Good net.system) }
    ensures notation { IfOk result (λ net. IsNotation net.notation) }
    ensures refused { IfErr result (Stops (RefusesNet bytes.now)) }
{
    let plain = plain_of(alloc, bytes)?;
    let notation = plain.notation;
    let system = checked(alloc, plain)?;
    Ok(AcceptedNet { system, notation })
}

/// The system of a net text.
#[tactic(auto, using(crate::proofs::Causes::refusals))]
pub fn system_of(alloc: Global, bytes: &[u8]) -> Result<System, Stopped>
    ensures accepted { IfOk result (λ system. Accepted bytes.now system) }
    ensures good { IfOk result (λ system. Good system) }
    ensures refused { IfErr result (Stops (RefusesNet bytes.now)) }
{
    let plain = plain_of(alloc, bytes)?;
    checked(alloc, plain)
}
