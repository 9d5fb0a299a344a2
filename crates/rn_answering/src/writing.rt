//! Writing what a command comes to.
ghost use Rattle.std.specs.Prelude.{◌≡◌, ◌≢◌, ◌⊎◌, []};
ghost use Rattle.rn_outside.specs.Bytes.{Appends, AppendsPrefix, IsCalledSeldom};
ghost use Rattle.rn_outside.specs.Faults.{risen};
ghost use Rattle.rn_answering.specs.declared.status.TheConstants.{NO_MEMORY, WRITE_FAULT};
ghost use Rattle.rn_answering.specs.Writing.{TakesLine};

use crate::answer::Answer;
use crate::status::{NO_MEMORY, WRITE_FAULT};
use rn_outside::{Sink, write_all};

/// Writes what a command comes to: its text, and then its line. Memory that ran out stays reported
/// where the line fails.
#[tactic(auto, using(rn_outside::proofs::ByteLemmas::seldom))]
pub fn write_answer<O: Sink, E: Sink>(out: &mut O, err: &mut E, answer: &Answer) -> u8
    ensures written { result ≢ WRITE_FAULT → (result ≡ answer.now.status)
        × Appends (O.held out.old) answer.now.text (O.held out.new)
        × (O.faults out.new ≡ O.faults out.old) }
    ensures told { result ≢ WRITE_FAULT → result ≢ NO_MEMORY →
        Appends (E.held err.old) answer.now.line (E.held err.new)
        × (E.faults err.new ≡ E.faults err.old) }
    ensures memory { result ≡ NO_MEMORY → TakesLine (E.held err.old) (E.held err.new)
        (E.faults err.old) (E.faults err.new) answer.now.line }
    ensures nothing { answer.now.line ≡ [] → err.new ≡ err.old }
    ensures failed { result ≡ WRITE_FAULT → answer.now.status ≢ WRITE_FAULT →
        (AppendsPrefix (O.held out.old) answer.now.text (O.held out.new)
        × (O.faults out.new ≡ risen (O.faults out.old)) × (err.new ≡ err.old))
        ⊎ ((answer.now.status ≢ NO_MEMORY)
        × Appends (O.held out.old) answer.now.text (O.held out.new)
        × (O.faults out.new ≡ O.faults out.old)
        × AppendsPrefix (E.held err.old) answer.now.line (E.held err.new)
        × (E.faults err.new ≡ risen (E.faults err.old))) }

    // Each sink is called at most once for each byte that it takes, and once more, and never for none.
    ensures seldom { IsCalledSeldom (O.held out.old) (O.held out.new)
        (O.writes out.old) (O.writes out.new)
        × IsCalledSeldom (E.held err.old) (E.held err.new)
        (E.writes err.old) (E.writes err.new) }
    ensures none_empty { (O.empty_writes out.new ≡ O.empty_writes out.old)
        × (E.empty_writes err.new ≡ E.empty_writes err.old) }
{
    if write_all(out, answer.text.as_slice()).is_err() {
        return WRITE_FAULT;
    }
    let written = write_all(err, answer.line.as_slice()).is_ok();
    if written || answer.status == NO_MEMORY {
        answer.status
    } else {
        WRITE_FAULT
    }
}

/// Writes a line, and returns the status that it belongs to, also where it fails.
pub fn write_line<E: Sink>(err: &mut E, line: &[u8], status: u8) -> u8
    ensures status { result ≡ status }
    ensures line { TakesLine (E.held err.old) (E.held err.new)
        (E.faults err.old) (E.faults err.new) line.now }

    // The sink is called at most once for each byte that it takes, and once more, and never for none.
    ensures seldom { IsCalledSeldom (E.held err.old) (E.held err.new)
        (E.writes err.old) (E.writes err.new) }
    ensures none_empty { E.empty_writes err.new ≡ E.empty_writes err.old }
{
    let _written = write_all(err, line);
    status
}
