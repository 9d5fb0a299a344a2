//! A source in memory.
ghost use Rattle.std.specs.Prelude.{◌≡◌, ◌↔◌, ◌+◌, ◌≤◌, ◌++◌, length, take, drop, min, Some, IfOk, IsErr, OnErr, Contains};
ghost use Rattle.rn_outside.specs.Faults.{risen};

use crate::calls::is_listed;
use crate::source::{Source, SourceFailed};
use std::marker::Model;

/// A source over bytes in memory, whose calls of given numbers fail. Each other call gives as many
/// bytes as are left and fit the buffer. No call takes memory.
#[derive(Debug, Drop)]
pub struct MemSource {
    bytes: Vec<u8>,
    start: usize,
    calls: u64,
    fails: Vec<u64>,
    faults: u64,
}

impl Model for MemSource {
    ghost use Rattle.std.specs.Prelude.{◌≤◌, drop, length};
    ghost use Rattle.rn_outside.specs.InMemory.{SourceState};

    ghost Value = { SourceState };

    ghost view = { λ s. record {
      left = drop s.start s.bytes.items;
      calls = s.calls;
      fails = s.fails.items;
      faults = s.faults;
    } };

    ghost invariant = { λ s. s.start ≤ length s.bytes.items };
}

impl MemSource {
    /// A source of these bytes. Its calls numbered in `fails`, from 1, fail and take nothing: with
    /// `fails` of 2 the second call does, and the third goes on where the first ended.
    pub fn new(bytes: Vec<u8>, fails: Vec<u64>) -> MemSource
        ensures { result ≡ record {
          left = bytes.items;
          calls = 0;
          fails = fails.items;
          faults = 0;
        } }
    {
        MemSource {
            bytes,
            start: 0,
            calls: 0,
            fails,
            faults: 0,
        }
    }
}

impl Source for MemSource {
    ghost left = { λ s. Some s.left };

    ghost faults = { λ s. s.faults };

    ghost reads = { λ s. s.calls };

    fn read(&mut self, buf: &mut [u8]) -> Result<usize, SourceFailed>
        // No call after number 2^64 - 1 fails, since no `u64` is its number.
        ensures fails { IsErr result ↔ Contains self.old.fails (self.old.calls + 1) }
        ensures count { IfOk result (λ n. n ≡ min (length self.old.left) (length buf.old)) }
        ensures filled { IfOk result (λ n. buf.new ≡ take n self.old.left ++ drop n buf.old) }
        ensures ok { IfOk result (λ n. self.new ≡ record self.old {
          left = drop n self.old.left;
          calls = risen self.old.calls;
        }) }

        // A failure takes nothing, and is counted.
        ensures err { OnErr result (self.new ≡ record self.old {
          calls = risen self.old.calls;
          faults = risen self.old.faults;
        }) }
        ensures unfilled { OnErr result (buf.new ≡ buf.old) }

        // What each source ensures besides.
        ensures never_falls { self.old.faults ≤ self.new.faults }
    {
        let fails = is_listed(&self.fails, self.calls);
        self.calls = self.calls.saturating_add(1);
        if fails {
            self.faults = self.faults.saturating_add(1);
            return Err(SourceFailed);
        }
        let n = copy_prefix(&self.bytes[self.start..], buf);
        self.start += n;
        Ok(n)
    }
}

// Copies as many bytes as are there and have room.
fn copy_prefix(bytes: &[u8], buf: &mut [u8]) -> usize
    ensures count { result ≡ min (length bytes.now) (length buf.old) }
    ensures filled { buf.new ≡ take result bytes.now ++ drop result buf.old }
{
    let n = bytes.len().min(buf.len());
    buf[..n].copy_from_slice(&bytes[..n]);
    n
}
