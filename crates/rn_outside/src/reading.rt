//! Reading a source to its end.
ghost use Rattle.std.specs.Prelude.{◌≡◌, ◌+◌, ◌<◌, ◌≤◌, length, IfOk, IfSome, IsErr, IsErrOf};
ghost use Rattle.std.specs.Prelude.{OnErr};
ghost use Rattle.rn_outside.specs.Bytes.{GivesAll, GivesAtMost, GivesPrefix};
ghost use Rattle.rn_outside.specs.Faults.{Rose, risen};

use crate::source::Source;
use rn_items::NoMemory;
use std::alloc::{AllocError, Global};

/// Why a source wasn't read to its end.
#[derive(Clone, Copy, Debug, PartialEq, Eq)]
pub enum ReadAllFault {
    /// A read failed.
    ReadFault,
    /// More bytes were left than the limit.
    TooLong,
    NoMemory(NoMemory),
}

impl From<AllocError> for ReadAllFault {
    ghost use Rattle.std.specs.Prelude.{◌≡◌};
    ghost use Rattle.rn_items.specs.Memory.{no_memory};
    ghost use Rattle.rn_outside.specs.declared.reading.ReadAllFault.TheVariants.{NoMemory};

    ghost from_gives = { λ _ e. e ≡ NoMemory no_memory };

    fn from(error: AllocError) -> ReadAllFault {
        ReadAllFault::NoMemory(NoMemory::from(error))
    }
}

// How many bytes are asked for at once, at most.
const PIECE: usize = 8192;

/// Reads a source to its end, where at most `limit` bytes are left in it. It stops at the first
/// read that fails, and as soon as there is a byte more than `limit`.
#[tactic(auto, using(crate::proofs::ByteLemmas::pieces))]
pub fn read_all<S: Source>(
    alloc: Global,
    source: &mut S,
    limit: usize,
) -> Result<Vec<u8>, ReadAllFault>
    ensures all { IfOk result (λ bytes.
        GivesAll (S.left source.old) bytes.items (S.left source.new)) }
    ensures within { IfOk result (λ bytes. length bytes.items ≤ limit) }

    // `TooLong` comes only where more than `limit` bytes are left, and then no answer is Ok.
    ensures too_long { IsErrOf result ReadAllFault.TooLong →
        IfSome (S.left source.old) (λ left. limit < length left) }
    ensures longer { IfSome (S.left source.old) (λ left. limit < length left → IsErr result) }

    ensures cause { IsErrOf result ReadAllFault.ReadFault →
        Rose (S.faults source.old) (S.faults source.new) }

    // The first fault ends the call: it is the only one, and no other answer comes after one.
    ensures one_fault { IsErrOf result ReadAllFault.ReadFault →
        S.faults source.new ≡ risen (S.faults source.old) }
    ensures no_fault { ¬ IsErrOf result ReadAllFault.ReadFault →
        S.faults source.new ≡ S.faults source.old }

    // After each error the source has given some prefix of its bytes.
    ensures prefix { OnErr result (GivesPrefix (S.left source.old) (S.left source.new)) }

    // It has given no more in any case than shows that it has too many.
    ensures taken { GivesAtMost (limit + 1) (S.left source.old) (S.left source.new) }

    ensures never_falls { S.faults source.old ≤ S.faults source.new }

    // Each read but the last gives a byte at least.
    ensures reads { S.reads source.new ≤ S.reads source.old + (limit + 1) }
    ensures each_gives { IfSome (S.left source.old) (λ left.
        S.reads source.new ≤ S.reads source.old + (length left + 1)) }
{
    let mut buf = [0u8; PIECE];
    let mut bytes = Vec::new(alloc);
    'pieces: loop {
        // One more than there is room for, so that a byte too many is seen.
        let room = limit - bytes.len();
        let asked = room.min(buf.len() - 1) + 1;
        let piece = &mut buf[..asked];
        let Ok(n) = source.read(piece) else {
            return Err(ReadAllFault::ReadFault);
        };
        if n == 0 {
            return Ok(bytes);
        }
        if n > room {
            return Err(ReadAllFault::TooLong);
        }
        bytes.extend_from_slice(&piece[..n])?;
    }
}
