//! The streams of the program, each under its name.
ghost use Rattle.std.specs.Prelude.{◌≡◌};

use rn_outside::{StdSink, StdSource};
use std::io::{Stderr, Stdin, Stdout};

/// What the program reads, and the two outputs on which it writes.
#[derive(Drop)]
pub(crate) struct Streams<I, O, E> {
    pub(crate) input: I,
    pub(crate) out: O,
    pub(crate) err: E,
}

/// The standard streams of the system. The type of each says which of them it is.
pub(crate) type Standard = Streams<StdSource<Stdin>, StdSink<Stdout>, StdSink<Stderr>>;

/// The standard streams, of which none has failed yet.
pub(crate) fn standard(rt: &HostRuntime) -> Standard
    ensures input { result.input.faults ≡ 0 }
    ensures out { result.out.faults ≡ 0 }
    ensures err { result.err.faults ≡ 0 }
{
    Streams {
        input: StdSource::new(rt.stdin()),
        out: StdSink::new(rt.stdout()),
        err: StdSink::new(rt.stderr()),
    }
}
