//! A sink over a writer of the standard library.
ghost use Rattle.std.specs.Prelude.{◌≡◌, ◌<◌, ◌≤◌, length, None, IfOk, OnOk, OnErr};
ghost use Rattle.rn_outside.specs.Faults.{risen};
ghost use Rattle.rn_outside.specs.OverStd.{TakesPiece};

use crate::sink::{Sink, SinkFailed};
use std::io::Write;
use std::marker::Model;

/// A sink over a writer of the standard library, as standard output.
///
/// Its bytes aren't known, since no proof knows what reaches the system. Each error of the writer is
/// a fault, and so is a write that takes nothing of a piece that isn't empty.
///
/// A write is flushed before it returns, so that none is lost in a buffer of the writer. Where the
/// flush fails the write has failed, though the writer has taken bytes of the piece.
#[derive(Drop)]
pub struct StdSink<W: Write> {
    writer: W,
    faults: u64,
}

impl<W: Write> Model for StdSink<W> {
    ghost use Rattle.rn_outside.specs.OverStd.{WriterState};

    ghost Value = { WriterState W };

    ghost view = { λ s. record { writer = s.writer; faults = s.faults } };
}

impl<W: Write> StdSink<W> {
    /// A sink over this writer, which hasn't failed yet.
    pub fn new(writer: W) -> StdSink<W>
        ensures { result ≡ record { writer = writer; faults = 0 } }
    {
        StdSink { writer, faults: 0 }
    }
}

impl<W: Write> Sink for StdSink<W> {
    ghost held = { λ _. None };

    ghost faults = { λ s. s.faults };

    ghost writes = { λ _. 0 };

    ghost empty_writes = { λ _. 0 };

    fn write(&mut self, piece: &[u8]) -> Result<usize, SinkFailed>
        ensures ok { OnOk result (self.new.faults ≡ self.old.faults) }
        ensures err { OnErr result (self.new.faults ≡ risen self.old.faults) }
        ensures bytes { TakesPiece (W.contents self.old.writer) (W.contents self.new.writer)
            result piece.now }

        // What each sink ensures besides.
        ensures within { IfOk result (λ n. n ≤ length piece.now) }
        ensures takes_some { IfOk result (λ n. 0 < length piece.now → 0 < n) }
        ensures never_falls { self.old.faults ≤ self.new.faults }
    {
        match write_through(&mut self.writer, piece) {
            Ok(n) => Ok(n),
            Err(error) => {
                self.faults = self.faults.saturating_add(1);
                Err(error)
            }
        }
    }
}

// One write, and a flush of what it took. To take nothing is a failure, unless there is nothing.
fn write_through<W: Write>(writer: &mut W, piece: &[u8]) -> Result<usize, SinkFailed>
    ensures within { IfOk result (λ n. n ≤ length piece.now) }
    ensures takes_some { IfOk result (λ n. 0 < length piece.now → 0 < n) }
    ensures bytes { TakesPiece (W.contents writer.old) (W.contents writer.new) result piece.now }
{
    let Ok(n) = writer.write(piece) else {
        return Err(SinkFailed);
    };
    if n == 0 && !piece.is_empty() {
        return Err(SinkFailed);
    }
    match writer.flush() {
        Ok(()) => Ok(n),
        Err(_) => Err(SinkFailed),
    }
}
