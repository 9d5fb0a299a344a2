//! What a search works on: a marking, where it starts, and what the search may rest on. Its
//! invariant keeps that the system is good, that the uplinks are its own, that tokens fit their
//! places and that the start may start a firing. So the calls of a search needn't ask for that
//! again (`docs/SEARCH.md`, 'Where it starts').
ghost use Rattle.std.specs.Prelude.{◌≡◌, ◌<◌, ◌≤◌, ◌-◌, IsTrue, true, false, length};
ghost use Rattle.rn_model.specs.Good.{Good};
ghost use Rattle.rn_model.specs.Limits.{greatest_depth};
ghost use Rattle.rn_model.specs.Systems.{net_at};
ghost use Rattle.rn_channel.specs.Answering.{answering};
ghost use Rattle.rn_channel.specs.Heights.{suffices};
ghost use Rattle.rn_growing.specs.Decisions.{transition_in};
ghost use Rattle.rn_search.specs.Missing.{MayStart};
ghost use Rattle.rn_search.specs.Problems.{HasFitTokens, IsProblem};

use rn_channel::{Uplinks, calls_need_levels};
use rn_growing::Head;
use rn_model::System;
use rn_model::limits::GREATEST_DEPTH;
use rn_table::Table;
use std::marker::Model;

/// A marking of a system in which enabled bindings are looked for, within a depth and from a start.
/// Contracts see what is looked for.
#[derive(Drop)]
pub struct Problem<'a> {
    system: &'a System,
    uplinks: &'a Uplinks,
    table: &'a Table,
    depth: u32,
    start: Head,
}

impl<'a> Model for Problem<'a> {
    ghost use Rattle.rn_search.specs.Sought.{Sought};
    ghost use Rattle.rn_search.specs.Problems.{IsProblem, sought_code};

    ghost Value = { Sought };

    ghost coded = { sought_code };

    ghost view = { λ p. record { system = p.system.now; marking = p.table.now.marking; depth = p.depth; start = p.start } };

    ghost invariant = { λ p. IsProblem p.system.now p.uplinks.now p.table.now.marking p.start };
}

impl<'a> Problem<'a> {
    /// A problem of these parts. It takes no memory.
    pub fn new(
        system: &'a System,
        uplinks: &'a Uplinks,
        table: &'a Table,
        depth: u32,
        start: Head,
    ) -> Problem<'a>
        requires { IsProblem system.now uplinks.now table.now.marking start }
        ensures { result ≡ record { system = system.now; marking = table.now.marking; depth = depth; start = start } }
    {
        Problem {
            system,
            uplinks,
            table,
            depth,
            start,
        }
    }

    /// The system, which is good.
    pub fn system(&self) -> &System
        ensures same { result.now ≡ self.now.system }
        ensures good { Good self.now.system }
    {
        self.system
    }

    /// The table, whose tokens fit.
    pub fn table(&self) -> &Table
        ensures same { result.now.marking ≡ self.now.marking }
        ensures tokens { HasFitTokens self.now.system self.now.marking }
    {
        self.table
    }

    /// Within how many levels of calls bindings are looked for.
    pub fn depth(&self) -> u32
        ensures { result ≡ self.now.depth }
    {
        self.depth
    }

    /// The node at which they start.
    pub fn start(&self) -> &Head
        ensures same { result.now ≡ self.now.start }
        ensures starts { MayStart self.now.system self.now.marking self.now.start }
    {
        &self.start
    }

    /// The transitions of a net with an uplink of this channel, ascending.
    pub fn answering(&self, net: u32, channel: u32) -> &[u32]
        ensures { result.now ≡ answering self.now.system net channel }
    {
        self.uplinks.answering(net, channel)
    }

    /// Whether the levels of calls that are left below a node suffice for its transition. Where more
    /// than the greatest depth are left, it may be that they don't. It takes no memory.
    pub fn has_levels(&self, head: &Head) -> bool
        requires net { head.now.net < length self.now.system.nets }
        requires transition { head.now.transition
            < length (net_at self.now.system head.now.net).transitions }
        ensures lacks { result ≡ false → suffices self.now.system
            (self.now.depth - length head.now.path) (transition_in self.now.system head.now)
            ≡ false }
        ensures has { self.now.depth ≤ greatest_depth → IsTrue result → suffices self.now.system
            (self.now.depth - length head.now.path) (transition_in self.now.system head.now)
            ≡ true }
    {
        calls_need_levels();
        let left = (self.depth as usize).saturating_sub(head.path.len());
        match self.uplinks.height(head.net, head.transition) {
            Some(height) => height as usize <= left,
            None => left > GREATEST_DEPTH as usize,
        }
    }
}
