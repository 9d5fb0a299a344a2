//! Room in which live instances are marked, taken before.
ghost use Rattle.std.specs.Prelude.{◌≡◌, ◌<◌, ◌≤◌, ◌^◌, ◌↔◌, ℕ, Some, true, [], length, IfOk, OnOk, OnErr};
ghost use Rattle.std.specs.List.{count_by};
ghost use Rattle.rn_model.specs.Liveness.{IsLive};
ghost use Rattle.rn_model.specs.Markings.{Instance, instance_at};
ghost use Rattle.rn_live.specs.Rooms.{is_marked, starts_of};

use crate::found::Found;
use crate::marking::mark_live;
use crate::starting::starting_nets;
use rn_items::NoMemory;
use rn_model::System;
use rn_table::Table;
use std::alloc::Global;
use std::marker::Model;

/// Room in which the live instances of tables are marked.
#[derive(Drop)]
pub struct LiveRoom {
    starting: Vec<bool>,
    found: Found,
}

impl Model for LiveRoom {
    ghost use Rattle.std.specs.Prelude.{◌≡◌, ◌≤◌, [], length, vec_capacity};
    ghost use Rattle.std.specs.Coded.{codes};
    ghost use Rattle.rn_live.specs.Rooms.{Room};

    ghost Value = { Room };

    ghost coded = { Prim.hlevel codes };

    ghost view = { λ r. record { starting = r.starting.items; marks = r.found.marks.items } };

    ghost invariant = { λ r. (r.found.waiting.items ≡ [])
        × (length r.found.marks.items ≤ vec_capacity r.found.waiting) };
}

impl LiveRoom {
    /// No instance is marked, and there is room for none.
    pub fn new(alloc: Global, system: &System) -> Result<LiveRoom, NoMemory>
        ensures starting { IfOk result (λ room. room.starting ≡ starts_of system.now) }
        ensures marks { IfOk result (λ room. room.marks ≡ []) }
    {
        let starting = starting_nets(alloc, system)?;
        Ok(LiveRoom {
            starting,
            found: Found::none(alloc),
        })
    }

    /// Room for the instances below this number. What is marked is left open.
    pub fn reserve(&mut self, next: u32) -> Result<(), NoMemory>
        ensures room { OnOk result (next ≤ length self.new.marks) }
        ensures starting { self.new.starting ≡ self.old.starting }
        ensures never_less { length self.old.marks ≤ length self.new.marks }
        ensures err { OnErr result (self.new ≡ self.old) }
    {
        let end = next as usize;
        if end <= self.found.marks.len() {
            return Ok(());
        }
        self.found.waiting.reserve(end)?;
        self.found.marks.resize(end, false)?;
        Ok(())
    }

    /// Marks the live instances of a table and no other numbers. Each kept instance has fewer than
    /// 2^32 places, as in a good system. It takes no memory.
    pub fn mark(&mut self, system: &System, table: &Table)
        requires room { table.now.marking.next ≤ length self.old.marks }
        requires of_system { self.old.starting ≡ starts_of system.now }
        requires places { (n : ℕ) (i : Instance) →
            instance_at table.now.marking n ≡ Some i → length i.places < 2 ^ 32 }
        ensures marks { (n : ℕ) →
            (is_marked self.new.marks n ≡ true) ↔ IsLive system.now table.now.marking n }
        ensures starting { self.new.starting ≡ self.old.starting }
        ensures size { length self.new.marks ≡ length self.old.marks }
    {
        mark_live(system, self.starting.as_slice(), table, &mut self.found);
    }

    /// Whether the instance of a number is marked.
    pub fn is_live(&self, number: u32) -> bool
        ensures { result ≡ is_marked self.now.marks number }
    {
        match self.found.marks.get(number as usize) {
            Some(mark) => *mark,
            None => false,
        }
    }

    /// How many instances are marked.
    pub fn count(&self) -> u64
        ensures { result ≡ count_by (λ mark. mark) self.now.marks }
    {
        let mut count = 0u64;
        for mark in self.found.marks.as_slice() {
            if *mark {
                count += 1;
            }
        }
        count
    }
}
