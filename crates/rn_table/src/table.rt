//! The table of instances.
ghost use Rattle.std.specs.Prelude.{◌≡◌, ◌<◌, ◌≤◌, ◌+◌, ◌*◌, ◌^◌, ◌↔◌, ◌++◌, ℕ, length, map, filter, find, not, nat_eq, nat_le, slice_get, All, Some, IsSome, IfSome, option_and_then, IfOk, OnOk, OnErr};
ghost use Rattle.std.specs.Option.{option_copied, option_to_list};
ghost use Rattle.std.specs.List.Sorted.{IsSorted, IsStrictlyIncreasing};
ghost use Rattle.rn_value.specs.Order.{value_cmp};
ghost use Rattle.rn_model.specs.declared.system.System.{System};
ghost use Rattle.rn_model.specs.Markings.{Instance, IsThere, initial_marking, instance_at, net_of, tokens_at};
ghost use Rattle.rn_model.specs.Limits.{greatest_instance};
ghost use Rattle.rn_table.specs.Alone.{alone};
ghost use Rattle.rn_table.specs.Changes.{MayCome, changed};
ghost use Rattle.rn_table.specs.Staying.{stays};
ghost use Rattle.rn_table.specs.Tables.{IsTableOf, started};

use crate::change::Change;
use crate::edits::{Edit, edits_of};
use crate::instance::Inst;
use crate::leaves::Leaves;
use crate::nets::main_net_of;
use crate::page::Page;
use crate::pages::{add_all, change_all, edit_one, first_start, leaf_of};
use rn_bag::Bag;
use rn_bag::words::ROOM;
use rn_items::NoMemory;
use rn_model::System;
use rn_value::Value;
use std::alloc::Global;
use std::marker::Model;
use std::sync::Arc;

/// The kept instances with their nets and tokens, and the number that the next instance gets.
///
/// Instances stand in pages of 64, and pages in directories of 32. A copy shares the directories, a
/// changed directory its other pages, a changed page the instances that didn't change, and a changed
/// instance its other places, of which more than 32 stand in chunks of 32.
#[derive(Drop)]
pub struct Table {
    next: u32,
    leaves: Leaves,
}

impl Model for Table {
    ghost use Rattle.rn_table.specs.link.Leaves.{IsTable, instances_in, starting_from};
    ghost use Rattle.rn_table.specs.Tables.{Kept, kept_code};

    ghost Value = { Kept };

    ghost coded = { kept_code };

    ghost view = { λ t. record { marking = record { next = t.next; instances = instances_in t.leaves }; starting = starting_from 0 t.leaves } };

    ghost invariant = { λ t. IsTable t.next t.leaves };
}

impl Table {
    /// The table with which a run starts: instance 1, of `main`, with its initial tokens.
    pub fn new(alloc: Global, system: &System) -> Result<Table, NoMemory>
        requires { length system.now.nets < 2 ^ 32 }
        ensures marking { IfOk result (λ table. table.marking ≡ initial_marking system.now) }
        ensures of_system { IfOk result (λ table. IsTableOf system.now table) }
    {
        let main = main_net_of(system) as u32;
        let mut leaves = Leaves::new(alloc);
        add_all(&mut leaves, system, 1, &[main])?;
        Ok(Table { next: 2, leaves })
    }

    /// An equal table, which shares its pages with the first.
    pub fn snapshot(&self) -> Result<Table, NoMemory>
        ensures { IfOk result (λ table. table ≡ self.now) }
    {
        Ok(Table {
            next: self.next,
            leaves: self.leaves.copy()?,
        })
    }

    /// An equal table, but that one place of an instance holds this token alone, or none. It shares
    /// all else with the first, and equals it where that instance isn't kept or has no such place.
    ///
    /// What leads to the place is copied, and no token but this one.
    pub fn with_alone(&self, n: u32, place: u32, token: Option<&Value>) -> Result<Table, NoMemory>
        ensures marking { IfOk result (λ table. table.marking ≡ alone n place (option_to_list (option_copied token.entry)) self.now.marking) }
        ensures starting { IfOk result (λ table. table.starting ≡ self.now.starting) }
        ensures of_system { IfOk result (λ table. (system : System) → IsTableOf system self.now → IsTableOf system table) }
    {
        let any = Value::Int(0);
        let edit = Edit::holding(n, place, token, &any);
        let mut leaves = self.leaves.copy()?;
        edit_one(&mut leaves, &edit)?;
        Ok(Table {
            next: self.next,
            leaves,
        })
    }

    /// The number that the next instance gets. All kept ones are below it.
    pub fn next(&self) -> u32
        ensures number { result ≡ self.now.marking.next }
        ensures most { result ≤ greatest_instance + 1 }
        ensures below { All (λ i. (0 < i.number) × (i.number < result)) self.now.marking.instances }
        ensures ascending { IsStrictlyIncreasing (map (λ i. i.number) self.now.marking.instances) }
        ensures sorted { All (λ i. All (λ tokens. IsSorted value_cmp tokens) i.places) self.now.marking.instances }
    {
        self.next
    }

    /// The kept instance of a number.
    pub fn find(&self, number: u32) -> Option<&Inst>
        ensures { option_copied result ≡ instance_at self.now.marking number }
    {
        let at = leaf_of(number);
        if at >= self.leaves.len() {
            return None;
        }
        self.leaves.leaf(at).get(number)
    }

    /// The net of an instance, where it is kept.
    pub fn net_of(&self, n: u32) -> Option<u32>
        ensures { result ≡ net_of self.now.marking n }
    {
        match self.find(n) {
            None => None,
            Some(inst) => Some(inst.net()),
        }
    }

    /// The tokens of a place of an instance, where the instance is kept and has that place.
    pub fn bag(&self, n: u32, place: u32) -> Option<&Bag>
        ensures { option_copied result ≡ option_and_then (λ i. slice_get i.places place) (instance_at self.now.marking n) }
    {
        match self.find(n) {
            None => None,
            Some(inst) => inst.bag(place),
        }
    }

    /// How many tokens a place of an instance has, and none where the instance isn't kept or hasn't
    /// that place. It looks at none of them.
    pub fn count(&self, n: u32, place: usize) -> usize
        ensures { result ≡ length (tokens_at self.now.marking n place) }
    {
        match self.find(n) {
            None => 0,
            Some(inst) => inst.count(place),
        }
    }

    /// The page in which the instances 64k + 1 to 64k + 64 stand, where one of them is kept.
    pub fn page(&self, k: u32) -> Option<&Arc<Page>>
        ensures some { IsSome result ↔ ((n : ℕ) × (ROOM * k < n) × (n ≤ ROOM * k + ROOM) × IsThere self.now.marking n) }
        ensures held { IfSome result (λ page. (n : ℕ) (i : Instance) → ROOM * k < n → n ≤ ROOM * k + ROOM → instance_at self.now.marking n ≡ Some i → find (λ j. nat_eq j.number n) page.now.value ≡ Some i) }
    {
        let at = k as usize;
        if at >= self.leaves.len() {
            return None;
        }
        self.leaves.leaf(at).page()
    }

    /// The first of the kept instances from this number on whose net has a transition without uplink.
    /// It looks at a word for each page, and at no instance.
    pub fn first_starting(&self, from: u32) -> Option<u32>
        ensures { result ≡ find (λ n. nat_le from n) self.now.starting }
    {
        first_start(&self.leaves, from)
    }

    /// The numbers of the kept instances, ascending.
    pub fn instances(&self) -> Result<Vec<u32>, NoMemory>
        ensures { IfOk result (λ numbers. numbers.items ≡ map (λ i. i.number) self.now.marking.instances) }
    {
        let mut numbers = Vec::new(self.leaves.allocator());
        for at in 0..self.leaves.len() {
            self.leaves.leaf(at).append_to(&mut numbers)?;
        }
        Ok(numbers)
    }

    /// New instances come with their initial tokens, what is taken and cleared goes, and what is put
    /// comes.
    ///
    /// It changes a copy, which takes the table's place last. A directory that it touches, a page,
    /// an instance, a chunk of its places and a bag are copied first. What is put where it is taken
    /// touches nothing.
    pub fn apply(&mut self, system: &System, change: &Change) -> Result<(), NoMemory>
        requires { MayCome system.now change.now self.old.marking }
        ensures marking { OnOk result (self.new.marking ≡ changed system.now change.now self.old.marking) }
        ensures starting { OnOk result (self.new.starting ≡ self.old.starting ++ started system.now self.old.marking.next change.now.made) }
        ensures of_system { OnOk result (IsTableOf system.now self.old → IsTableOf system.now self.new) }
        ensures err { OnErr result (self.new ≡ self.old) }
    {
        let made = change.made.as_slice();
        let edits = edits_of(self.leaves.allocator(), change)?;
        let mut leaves = self.leaves.copy()?;
        change_all(&mut leaves, system, self.next, made, edits.as_slice())?;
        self.leaves = leaves;
        self.next += made.len() as u32;
        Ok(())
    }

    /// These instances are kept no more, and the others stay. It takes no memory.
    pub fn remove_all(&mut self, numbers: &[u32])
        ensures next { self.new.marking.next ≡ self.old.marking.next }
        ensures instances { self.new.marking.instances ≡ filter (λ i. stays numbers.now i.number) self.old.marking.instances }
        ensures starting { self.new.starting ≡ filter (stays numbers.now) self.old.starting }
        ensures of_system { (system : System) → IsTableOf system self.old → IsTableOf system self.new }
    {
        for number in numbers {
            self.remove(*number);
        }
    }

    fn remove(&mut self, number: u32)
        ensures next { self.new.marking.next ≡ self.old.marking.next }
        ensures instances { self.new.marking.instances ≡ filter (λ i. not (nat_eq i.number number)) self.old.marking.instances }
        ensures starting { self.new.starting ≡ filter (λ n. not (nat_eq n number)) self.old.starting }
        ensures of_system { (system : System) → IsTableOf system self.old → IsTableOf system self.new }
    {
        let at = leaf_of(number);
        if at >= self.leaves.len() {
            return;
        }
        if number == 0 {
            return;
        }
        self.leaves.drop_one(at, number);
    }
}
