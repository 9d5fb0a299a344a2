//! The top call: workers that meet between search and commit.
use crate::calling::{sink, status};
use rn_items::NoMemory;
use rn_outside::MemSource;
use rn_worker::MeetGate;
use std::alloc::Global;
use std::sync::Wait;
use std::test::Fail;
use std::thread::Threads;

// One token, which only one worker can take.
const ONE: &[u8] = b"net main { place p = []; trans t { in p; } }";

// Two tokens that either of two workers may take.
const TWO: &[u8] = b"net main { var x: int; place p: int = 1, 2; trans t { in p: x; } }";

// The text that a call with status 0 leaves on `out`, and whether workers 1 and 2 met in it.
fn met_in<R: Threads + Wait + Sync>(
    rt: &R,
    alloc: Global,
    line: &str,
    text: &[u8],
    looks: u64,
) -> Result<Option<(Vec<u8>, bool)>, NoMemory> {
    let gate = MeetGate::new(looks);
    let mut input = MemSource::new(text.to_vec(alloc)?, Vec::new(alloc));
    let mut out = sink(alloc)?;
    let mut err = sink(alloc)?;
    let status = status(rt, alloc, line, &mut input, &mut out, &mut err, &gate)?;
    if status != 0 || !err.held().is_empty() {
        return Ok(None);
    }
    Ok(Some((out.held().to_vec(alloc)?, gate.met())))
}

fn lines_in(out: &[u8]) -> usize {
    out.iter().filter(|c| **c == b'\n').count()
}

// Where the two meet, worker 1 waits at the gate until worker 2 has fired. So both search before either
// has committed, and no turn is held meanwhile. What worker 1 found is then fired, or is gone.
#[test]
fn workers_meet(rt: HostRuntime) -> Result<(), Fail> {
    let table: [(&str, &[u8], u64, bool, usize, &[u8], &[u8]); 5] = [
        (
            "run --workers 2",
            ONE,
            50_000_000,
            true,
            2,
            b"1 w2 main[1].t\n",
            b"\nend dead\n",
        ),
        (
            "run --workers 2",
            TWO,
            50_000_000,
            true,
            3,
            b"1 w2 main[1].t x=",
            b"\nend dead\n",
        ),
        // Both have found the first binding.
        (
            "run --pick least --workers 2",
            TWO,
            50_000_000,
            true,
            3,
            b"1 w2 main[1].t x=1\n2 w",
            b"\nend dead\n",
        ),
        (
            "gen 2 --workers 2",
            b"",
            50_000_000,
            true,
            4,
            b"steps 10\nmade 3\n",
            b"\nlive 1\nend dead\n",
        ),
        // There is nobody to meet.
        (
            "run --workers 1",
            ONE,
            1000,
            false,
            2,
            b"1 w1 main[1].t\n",
            b"\nend dead\n",
        ),
    ];
    for (line, text, looks, met, lines, start, end) in table {
        let Some((out, found)) = met_in(&rt, rt.alloc(), line, text, looks)? else {
            return Err(Fail::new("another status"));
        };
        assert!(rt; found == met, "{line}");
        let out = out.as_slice();
        assert_eq!(rt; lines_in(out), lines, "{line}");
        assert!(rt;
            out.starts_with(start) && out.ends_with(end),
            "{line} {out:?}"
        );
    }
    Ok(())
}
