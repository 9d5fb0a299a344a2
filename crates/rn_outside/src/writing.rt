//! Writing all bytes to a sink.
ghost use Rattle.std.specs.Prelude.{◌≡◌, ◌+◌, ◌≤◌, [], length, OnOk, OnErr};
ghost use Rattle.rn_outside.specs.Bytes.{Appends, AppendsPrefix, IsCalledSeldom};
ghost use Rattle.rn_outside.specs.Faults.{Rose, risen};

use crate::sink::Sink;

/// A write failed before all bytes were written.
#[derive(Clone, Copy, Debug, PartialEq, Eq)]
pub struct WriteFault;

/// Writes all the bytes. After a short write the rest is offered again. It stops at the first write
/// that fails. For no bytes no write is made. It takes no memory.
#[tactic(auto, using(crate::proofs::ByteLemmas::calls))]
pub fn write_all<O: Sink>(sink: &mut O, bytes: &[u8]) -> Result<(), WriteFault>
    ensures all { OnOk result (Appends (O.held sink.old) bytes.now (O.held sink.new)) }
    ensures prefix { OnErr result (AppendsPrefix (O.held sink.old) bytes.now (O.held sink.new)) }
    ensures cause { OnErr result (Rose (O.faults sink.old) (O.faults sink.new)) }

    // The first fault ends the call: it is the only one, and none is passed over.
    ensures one_fault { OnErr result (O.faults sink.new ≡ risen (O.faults sink.old)) }
    ensures no_fault { OnOk result (O.faults sink.new ≡ O.faults sink.old) }

    ensures never_falls { O.faults sink.old ≤ O.faults sink.new }

    // Where there is nothing to write, the sink isn't called.
    ensures nothing { bytes.now ≡ [] → sink.new ≡ sink.old }

    // Each call but one that fails takes a byte at least, and none is for no bytes.
    ensures calls { O.writes sink.new ≤ O.writes sink.old + (length bytes.now + 1) }
    ensures calls_ok { OnOk result (O.writes sink.new ≤ O.writes sink.old + length bytes.now) }
    ensures seldom { IsCalledSeldom (O.held sink.old) (O.held sink.new)
        (O.writes sink.old) (O.writes sink.new) }
    ensures none_empty { O.empty_writes sink.new ≡ O.empty_writes sink.old }
{
    let mut taken = 0;
    while taken < bytes.len() {
        match sink.write(&bytes[taken..]) {
            Ok(n) => taken += n,
            Err(_) => return Err(WriteFault),
        }
    }
    Ok(())
}
