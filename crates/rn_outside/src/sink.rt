//! What a sink is.
ghost use Rattle.std.specs.Prelude.{◌≡◌, ◌+◌, ◌<◌, ◌≤◌, ℕ, List, Option, length, take, IfOk};
ghost use Rattle.std.specs.Prelude.{OnOk, OnErr};
ghost use Rattle.rn_outside.specs.Bytes.{Appends};
ghost use Rattle.rn_outside.specs.Faults.{Rose, risen};

/// A write failed. It has taken nothing.
#[derive(Clone, Copy, Debug, PartialEq, Eq)]
pub struct SinkFailed;

/// Where bytes go.
///
/// The bytes of a sink are known or not. Of one in memory they are, and contracts say what is
/// written. Of one over the system's files they aren't, and contracts speak of counts alone.
pub trait Sink {
    /// The bytes held, where they are known.
    ghost held: { Self → Option (List ℕ) };

    /// How often it has failed, a count of 64 bits.
    ghost faults: { Self → ℕ };

    /// How often it was called to write, where it counts that.
    ghost writes: { Self → ℕ };

    /// How often it was called for no bytes, where it counts that.
    ghost empty_writes: { Self → ℕ };

    /// Takes the first bytes of `piece`, at least one where there is one, and returns how many.
    fn write(&mut self, piece: &[u8]) -> Result<usize, SinkFailed>
        ensures within { IfOk result (λ n. n ≤ length piece.now) }
        ensures takes_some { IfOk result (λ n. 0 < length piece.now → 0 < n) }
        ensures appends { IfOk result (λ n.
            Appends (held self.old) (take n piece.now) (held self.new)) }

        // A failure takes nothing, and has a cause.
        ensures failed { OnErr result (held self.new ≡ held self.old) }
        ensures cause { OnErr result (Rose (faults self.old) (faults self.new)) }

        // It is counted once, and nothing else is.
        ensures one_fault { OnErr result (faults self.new ≡ risen (faults self.old)) }
        ensures no_fault { OnOk result (faults self.new ≡ faults self.old) }

        ensures never_falls { faults self.old ≤ faults self.new }
        ensures counted { writes self.new ≤ writes self.old + 1 }
        ensures filled { 0 < length piece.now → empty_writes self.new ≡ empty_writes self.old };
}
