//! A sink in memory.
ghost use Rattle.std.specs.Prelude.{◌≡◌, ◌↔◌, ◌⊎◌, ◌+◌, ◌-◌, ◌<◌, ◌≤◌, [], ◌++◌, length, take, min, Some, IfOk, IsErr, IsTrue, OnErr, Contains};
ghost use Rattle.rn_outside.specs.Faults.{risen};
ghost use Rattle.rn_outside.specs.InMemory.{empty_after};

use crate::calls::is_listed;
use crate::sink::{Sink, SinkFailed};
use rn_items::NoMemory;
use std::alloc::Global;
use std::marker::Model;

/// A sink in memory with a capacity, whose calls of given numbers fail, as do those on a full sink.
/// Its memory is taken when it is made. No other call takes any.
#[derive(Debug, Drop)]
pub struct MemSink {
    bytes: Vec<u8>,
    capacity: usize,
    most: usize,
    calls: u64,
    fails: Vec<u64>,
    faults: u64,
    empty_writes: u64,
}

impl Model for MemSink {
    ghost use Rattle.std.specs.Prelude.{◌≤◌, length, vec_capacity};
    ghost use Rattle.rn_outside.specs.InMemory.{SinkState, HasRoom};

    ghost Value = { SinkState };

    ghost view = { λ s. record {
      held = s.bytes.items;
      capacity = s.capacity;
      most = s.most;
      calls = s.calls;
      fails = s.fails.items;
      faults = s.faults;
      empty_writes = s.empty_writes;
    } };

    ghost invariant = { λ s.
        HasRoom (length s.bytes.items) s.capacity (vec_capacity s.bytes) s.most };
}

impl MemSink {
    /// An empty sink that can hold `capacity` bytes and takes at most `most` of them a call. Its
    /// calls numbered in `fails`, from 1, fail and take nothing.
    pub fn new(
        alloc: Global,
        capacity: usize,
        most: usize,
        fails: Vec<u64>,
    ) -> Result<MemSink, NoMemory>
        requires { 1 ≤ most }
        ensures { IfOk result (λ sink. sink ≡ record {
          held = [];
          capacity = capacity;
          most = most;
          calls = 0;
          fails = fails.items;
          faults = 0;
          empty_writes = 0;
        }) }
    {
        Ok(MemSink {
            bytes: Vec::with_capacity(alloc, capacity)?,
            capacity,
            most,
            calls: 0,
            fails,
            faults: 0,
            empty_writes: 0,
        })
    }

    // Whether the next call fails: it is one of those listed, or the sink is full.
    fn is_to_fail(&self) -> bool
        ensures { IsTrue result ↔ (Contains self.now.fails (self.now.calls + 1)
            ⊎ (length self.now.held ≡ self.now.capacity)) }
    {
        self.bytes.len() == self.capacity || is_listed(&self.fails, self.calls)
    }

    /// The bytes held.
    pub fn held(&self) -> &[u8]
        ensures held { result.now ≡ self.now.held }
        ensures within { length result.now ≤ self.now.capacity }
    {
        &self.bytes
    }
}

impl Sink for MemSink {
    ghost held = { λ s. Some s.held };

    ghost faults = { λ s. s.faults };

    ghost writes = { λ s. s.calls };

    ghost empty_writes = { λ s. s.empty_writes };

    fn write(&mut self, piece: &[u8]) -> Result<usize, SinkFailed>
        // A full sink fails, also at an empty piece. No call after number 2^64 - 1 fails by its
        // number, since no `u64` is that.
        ensures fails { IsErr result ↔ (Contains self.old.fails (self.old.calls + 1)
            ⊎ (length self.old.held ≡ self.old.capacity)) }
        ensures count { IfOk result (λ n. n ≡ min (min self.old.most (length piece.now))
            (self.old.capacity - length self.old.held)) }
        ensures ok { IfOk result (λ n. self.new ≡ record self.old {
          held = self.old.held ++ take n piece.now;
          calls = risen self.old.calls;
          empty_writes = empty_after self.old.empty_writes piece.now;
        }) }

        // A failure takes nothing, and is counted.
        ensures err { OnErr result (self.new ≡ record self.old {
          calls = risen self.old.calls;
          faults = risen self.old.faults;
          empty_writes = empty_after self.old.empty_writes piece.now;
        }) }

        // What each sink ensures besides.
        ensures takes_some { IfOk result (λ n. 0 < length piece.now → 0 < n) }
        ensures never_falls { self.old.faults ≤ self.new.faults }
    {
        let fails = self.is_to_fail();
        self.calls = self.calls.saturating_add(1);
        self.empty_writes = count_empty(self.empty_writes, piece);
        if fails {
            self.faults = self.faults.saturating_add(1);
            return Err(SinkFailed);
        }
        let room = self.capacity - self.bytes.len();
        let n = self.most.min(piece.len()).min(room);
        match self.bytes.extend_from_slice(&piece[..n]) {
            Ok(()) => Ok(n),
            Err(_) => unreachable!(),
        }
    }
}

// How many calls were for no bytes, after one more for this piece.
fn count_empty(count: u64, piece: &[u8]) -> u64
    ensures { result ≡ empty_after count piece.now }
{
    if piece.is_empty() {
        count.saturating_add(1)
    } else {
        count
    }
}
