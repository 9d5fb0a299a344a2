//! The instances that later firings may have changed.
ghost use Rattle.std.specs.Prelude.{◌≡◌, ◌<◌, ◌≤◌, ◌↔◌, ℕ, length, take, drop, IfOk, OnOk, Contains};
ghost use Rattle.rn_value.specs.declared.value.InstRef.TheVariants.{Old as Existing};
ghost use Rattle.rn_model.specs.Runs.{end_of};
ghost use Rattle.rn_reach.specs.Changes.{HasNodeOn, MayChange};
ghost use Rattle.rn_reach.specs.Reach.{DifferAtMostIn};
ghost use Rattle.rn_fire.specs.States.{end_marking};
ghost use Rattle.rn_fire.specs.link.Changed.{EntryHasNodeOn, Gets, OneHas};

use crate::state::SimState;
use rn_items::NoMemory;
use rn_model::{Binding, Entry, Node};
use rn_value::InstRef;
use std::alloc::Global;

// The existing instance on which a node stands comes to the end.
fn put_node(node: &Node, changed: &mut Vec<u32>) -> Result<(), NoMemory>
    ensures { OnOk result
        (Gets (λ n. node.now.inst ≡ Existing n) changed.old.items changed.new.items) }
{
    match &node.inst {
        InstRef::Old(number) => {
            changed.push(*number)?;
            Ok(())
        }
        InstRef::New(_, _) => Ok(()),
    }
}

// Those on which nodes of a binding stand come to the end.
fn put_binding(binding: &Binding, changed: &mut Vec<u32>) -> Result<(), NoMemory>
    ensures { OnOk result
        (Gets (HasNodeOn binding.now) changed.old.items changed.new.items) }
{
    for node in binding.nodes.as_slice() {
        put_node(node, changed)?;
    }
    Ok(())
}

fn put_entry(entry: &Entry, changed: &mut Vec<u32>) -> Result<(), NoMemory>
    ensures { OnOk result
        (Gets (EntryHasNodeOn entry.now) changed.old.items changed.new.items) }
{
    match entry {
        Entry::Fire { binding, .. } => put_binding(binding, changed),
        Entry::End(_) => Ok(()),
    }
}

// Those on which nodes of these firings stand come to the end.
fn put_entries(entries: &[Entry], changed: &mut Vec<u32>) -> Result<(), NoMemory>
    ensures { OnOk result
        (Gets (OneHas EntryHasNodeOn entries.now) changed.old.items changed.new.items) }
{
    for entry in entries {
        put_entry(entry, changed)?;
    }
    Ok(())
}

// The numbers from one to before another come to the end.
fn put_numbers(from: u32, end: u32, changed: &mut Vec<u32>) -> Result<(), NoMemory>
    ensures { OnOk result
        (Gets (λ n. (from ≤ n) × (n < end)) changed.old.items changed.new.items) }
{
    for number in from..end {
        changed.push(number)?;
    }
    Ok(())
}

impl SimState {
    /// The instances that the firings after the first `seen` may have changed or made: those on which
    /// their nodes stand, and those that they made.
    ///
    /// `next` is the number that the next instance was to get after the first `seen` firings, as the
    /// table gave it then. One that was changed several times stands there several times.
    pub fn changed_since(&self, alloc: Global, seen: u64, next: u32) -> Result<Vec<u32>, NoMemory>
        requires seen { seen ≤ length self.now.fired }
        requires next { next ≡ (end_of self.now.setup.system (take seen self.now.fired)).next }
        ensures just { IfOk result (λ changed. (n : ℕ) → Contains changed.items n
            ↔ MayChange (drop seen self.now.fired) next (end_marking self.now).next n) }
        ensures differ { IfOk result (λ changed. DifferAtMostIn changed.items
            (end_of self.now.setup.system (take seen self.now.fired)) (end_marking self.now)) }
    {
        let mut changed = Vec::new(alloc);
        put_entries(&self.entries()[seen as usize..], &mut changed)?;
        put_numbers(next, self.table().next(), &mut changed)?;
        // For its clause: it is a state of a run (`IsState`), so its log is a run of a good system.
        let _length = self.length();
        Ok(changed)
    }
}
