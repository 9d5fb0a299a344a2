//! What a source is.
ghost use Rattle.std.specs.Prelude.{◌≡◌, ◌+◌, ◌<◌, ◌≤◌, ℕ, List, Option, length, take, IfOk};
ghost use Rattle.std.specs.Prelude.{OnOk, OnErr};
ghost use Rattle.rn_outside.specs.Bytes.{Gives, IsAtEnd};
ghost use Rattle.rn_outside.specs.Faults.{Rose, risen};

/// A read failed. It has taken nothing.
#[derive(Clone, Copy, Debug, PartialEq, Eq)]
pub struct SourceFailed;

/// Where bytes come from.
///
/// The bytes of a source are known or not. Of one in memory they are, and contracts say what is
/// read. Of one over the system's files they aren't, and contracts speak of counts alone.
pub trait Source {
    /// The bytes left, where they are known.
    ghost left: { Self → Option (List ℕ) };

    /// How often it has failed, a count of 64 bits.
    ghost faults: { Self → ℕ };

    /// How often it was read, where it counts that.
    ghost reads: { Self → ℕ };

    /// Puts the next bytes at the start of `buf`, and returns how many. `Ok(0)` into a buffer
    /// that isn't empty is the end. What stands after them in `buf`, and after an error in all
    /// of it, is left open.
    fn read(&mut self, buf: &mut [u8]) -> Result<usize, SourceFailed>
        ensures within { IfOk result (λ n. n ≤ length buf.new) }
        ensures gives { IfOk result (λ n. Gives (left self.old) (take n buf.new) (left self.new)) }
        ensures end { IfOk result (λ n. n ≡ 0 → 0 < length buf.old → IsAtEnd (left self.old)) }

        // A failure takes nothing, and has a cause.
        ensures failed { OnErr result (left self.new ≡ left self.old) }
        ensures cause { OnErr result (Rose (faults self.old) (faults self.new)) }

        // It is counted once, and nothing else is.
        ensures one_fault { OnErr result (faults self.new ≡ risen (faults self.old)) }
        ensures no_fault { OnOk result (faults self.new ≡ faults self.old) }

        ensures never_falls { faults self.old ≤ faults self.new }
        ensures counted { reads self.new ≤ reads self.old + 1 };
}
