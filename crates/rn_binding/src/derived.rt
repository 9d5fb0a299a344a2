//! Whether a binding that is given is derived.
ghost use Rattle.std.specs.Prelude.{◌≡◌, ◌↔◌, Contains, IfOk, IsTrue, map};
ghost use Rattle.rn_model.specs.Derivation.{Derived, Item, items_of};
ghost use Rattle.rn_binding.specs.link.Parts.{item_of, picked, AllWithin, HaveTheSame};
ghost use Rattle.rn_binding.specs.link.Passing.{IsGiven, IsFollowed, IsPassed, AreLeft, Ends};

use crate::bringing::{bring, enter_start};
use crate::forcing::are_all_forced;
use crate::headed::headed_of;
use crate::part::Part;
use crate::parts::parts_of;
use crate::propagating::propagate;
use crate::subject::Subject;
use rn_growing::{Growing, GrowingRoom};
use rn_model::{Binding, System};
use rn_value::NoMemory;
use std::alloc::Global;

// Tries items one after another, each given by its index and the last of them first, and gives
// those that are left in the order in which they were tried. So a pass over these goes the other
// way.
fn pass(
    alloc: Global,
    subject: Subject<'_>,
    growing: &mut Growing<'_>,
    parts: &[Part<'_>],
    pending: &[usize],
) -> Result<Vec<usize>, NoMemory>
    requires given { IsGiven subject.system.now subject.binding.now }
    requires headed { subject.headed.now ≡ subject.binding.now.nodes }
    requires followed { IsFollowed subject.system.now subject.binding.now growing.old }
    requires within { AllWithin parts.now pending.now }
    requires items { (item : Item) → Contains (picked parts.now pending.now) item
        → Contains (items_of subject.system.now subject.binding.now) item }
    ensures passed { IfOk result (λ left. IsPassed subject.entry.system.now
        subject.entry.binding.now growing.old (picked parts.now pending.now) growing.new
        (picked parts.now left.items)) }
    ensures within { IfOk result (λ left. AllWithin parts.now left.items) }
{
    let mut left = Vec::new(alloc);
    let mut k = pending.len();
    while 0 < k {
        k -= 1;
        let i = pending[k];
        if !bring(alloc, subject, growing, &parts[i])? {
            left.push(i)?;
        }
    }
    Ok(left)
}

// The indices of all items, the last of them first.
fn all_of(alloc: Global, parts: &[Part<'_>]) -> Result<Vec<usize>, NoMemory>
    ensures picks { IfOk result (λ all. HaveTheSame (picked parts.now all.items)
        (map item_of parts.now)) }
    ensures within { IfOk result (λ all. AllWithin parts.now all.items) }
{
    let mut all = Vec::with_capacity(alloc, parts.len())?;
    let mut i = parts.len();
    while 0 < i {
        i -= 1;
        all.push(i)?;
    }
    Ok(all)
}

// Tries all items in order, and those that are left against it. Gives those that are left then.
fn sweep(
    alloc: Global,
    subject: Subject<'_>,
    growing: &mut Growing<'_>,
    parts: &[Part<'_>],
) -> Result<Vec<usize>, NoMemory>
    requires given { IsGiven subject.system.now subject.binding.now }
    requires headed { subject.headed.now ≡ subject.binding.now.nodes }
    requires followed { IsFollowed subject.system.now subject.binding.now growing.old }
    requires items { map item_of parts.now ≡ items_of subject.system.now subject.binding.now }
    ensures left { IfOk result (λ left. AreLeft subject.entry.system.now
        subject.entry.binding.now growing.new (picked parts.now left.items)) }
    ensures within { IfOk result (λ left. AllWithin parts.now left.items) }
{
    let all = all_of(alloc, parts)?;
    let all = all.as_slice();
    let left = pass(alloc, subject, growing, parts, all)?;
    let left = left.as_slice();
    pass(alloc, subject, growing, parts, left)
}

// Brings items in until none of those that are left may come in. True if none is left.
fn bring_all(
    alloc: Global,
    subject: Subject<'_>,
    growing: &mut Growing<'_>,
    parts: &[Part<'_>],
) -> Result<bool, NoMemory>
    requires given { IsGiven subject.system.now subject.binding.now }
    requires headed { subject.headed.now ≡ subject.binding.now.nodes }
    requires followed { IsFollowed subject.system.now subject.binding.now growing.old }
    requires items { map item_of parts.now ≡ items_of subject.system.now subject.binding.now }
    ensures { IfOk result (λ all. Ends subject.entry.system.now subject.entry.binding.now
        growing.new all) }
{
    let mut pending = sweep(alloc, subject, growing, parts)?;
    propagate(alloc, subject, growing, parts, pending.as_slice())?;
    loop {
        let left = pass(alloc, subject, growing, parts, pending.as_slice())?;
        if left.len() == pending.len() {
            return Ok(left.is_empty());
        }
        pending = left;
    }
}

/// Whether a binding that agrees is derived. It is grown by its own values: whatever may come in
/// comes in, and then all is in and all variables are forced, or it isn't derived.
pub(crate) fn is_derived(
    alloc: Global,
    system: &System,
    binding: &Binding,
) -> Result<bool, NoMemory>
    requires given { IsGiven system.now binding.now }
    ensures { IfOk result (λ yes. IsTrue yes ↔ Derived system.now binding.now) }
{
    let headed = headed_of(alloc, binding.nodes.as_slice())?;
    let headed = headed.as_slice();
    let parts = parts_of(alloc, system, headed)?;
    let room = GrowingRoom::with_room(alloc, parts.len())?;
    let mut growing = Growing::open_in(room, system);
    let subject = Subject {
        system,
        binding,
        headed,
    };
    enter_start(alloc, subject, &mut growing)?;
    if !bring_all(alloc, subject, &mut growing, parts.as_slice())? {
        return Ok(false);
    }
    are_all_forced(alloc, system, &growing, binding.nodes.as_slice())
}
