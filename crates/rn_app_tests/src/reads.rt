//! How often the top call reads its input, and how much of it it takes.
use crate::calling::{sink, status};
use rn_items::NoMemory;
use rn_outside::{Source, SourceFailed};
use rn_worker::NoGate;
use std::alloc::Global;
use std::sync::Wait;
use std::test::Fail;
use std::thread::Threads;

// A source that counts its reads. It has so many bytes left, which are whatever stands in the buffer.
#[derive(Drop)]
struct Counting {
    reads: u64,
    left: usize,
}

impl Source for Counting {
    ghost use Rattle.std.specs.Prelude.{None};

    ghost left = { λ _. None };

    ghost faults = { λ _. 0 };

    ghost reads = { λ s. s.reads };

    fn read(&mut self, buf: &mut [u8]) -> Result<usize, SourceFailed> {
        self.reads = self.reads.saturating_add(1);
        let given = self.left.min(buf.len());
        self.left -= given;
        Ok(given)
    }
}

// What a call with these words gives over so many bytes: its status, how often it read, and how many
// bytes are left then.
fn reads<R: Threads + Wait + Sync>(
    rt: &R,
    alloc: Global,
    line: &str,
    bytes: usize,
) -> Result<(u8, u64, usize), NoMemory> {
    let mut input = Counting {
        reads: 0,
        left: bytes,
    };
    let mut out = sink(alloc)?;
    let mut err = sink(alloc)?;
    let found = status(rt, alloc, line, &mut input, &mut out, &mut err, &NoGate)?;
    Ok((found, input.reads, input.left))
}

#[test]
fn no_more_is_read_than_is_needed(rt: HostRuntime) -> Result<(), Fail> {
    let table: [(&str, usize, (u8, u64, usize)); 6] = [
        ("fly", 9, (2, 0, 9)),
        ("gen 1", 9, (0, 0, 9)),
        // The end is seen by one read more.
        ("run", 0, (1, 1, 0)),
        ("check", 9, (1, 2, 0)),
        // Of what is too long no more is taken than shows it.
        ("print", 9_000_000, (1, 513, 4_805_695)),
        ("replay", 70_000_000, (1, 8193, 2_891_135)),
    ];
    for (line, bytes, wanted) in table {
        assert_eq!(rt; reads(&rt, rt.alloc(), line, bytes)?, wanted, "{line}");
    }
    Ok(())
}
