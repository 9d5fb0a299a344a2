//! Looking at instances in the order of their numbers, up to one with which a binding starts. What
//! starts with a smaller number is less, so the first that is found is the first of all. Those that
//! are searched in vain on the way become known, for the next look (`docs/SEARCH.md`, 'The first of
//! all').
ghost use Rattle.std.specs.Prelude.{◌≡◌, ⊤, [], Some, IfOk, MatchOption};
ghost use Rattle.rn_finder.specs.First.{IsFirstOf};
ghost use Rattle.rn_finder.specs.Starting.{IsSearchable};
ghost use Rattle.rn_firsts.specs.Known.{IsLookedAt};

use crate::marked::Marked;
use crate::pace::LookPace;
use rn_binding::Candidate;
use rn_finder::{Room, least_of};
use rn_items::NoMemory;
use std::alloc::Global;
use std::collections::BTreeSet;

/// The first of all bindings, where one starts with one of those that are to be looked at again. These
/// are looked at in order, and go where none starts.
pub(crate) fn first_again(
    alloc: Global,
    marked: Marked<'_>,
    until: u32,
    again: &mut BTreeSet<u32>,
    room: &mut Room,
) -> Result<Option<Candidate>, NoMemory>
    requires searched { IsSearchable marked.system.now marked.uplinks.now marked.table.now }
    requires looked { IsLookedAt marked.system.now marked.table.now.marking marked.depth until
        again.old.keys }
    ensures first { IfOk result (λ found. MatchOption found (again.new.keys ≡ [])
        (λ b. IsFirstOf marked.entry.system.now marked.entry.table.now.marking marked.entry.depth
        (λ b. ⊤) (Some b))) }
    ensures looked { IsLookedAt marked.entry.system.now marked.entry.table.now.marking
        marked.entry.depth until again.new.keys }
{
    while let Some(first) = again.first() {
        let number = *first;
        let found = least_of(
            alloc,
            marked.system,
            marked.uplinks,
            marked.table,
            marked.depth,
            number,
            room,
        )?;
        if let Some(first) = found {
            return Ok(Some(first));
        }
        let _gone = again.pop_first();
    }
    Ok(None)
}

/// The first of all bindings, where none starts with an instance below a number. The others are looked
/// at in order, and the number rises.
pub(crate) fn first_from(
    alloc: Global,
    marked: Marked<'_>,
    until: &mut u32,
    pace: &mut LookPace,
    room: &mut Room,
) -> Result<Option<Candidate>, NoMemory>
    requires searched { IsSearchable marked.system.now marked.uplinks.now marked.table.now }
    requires looked { IsLookedAt marked.system.now marked.table.now.marking marked.depth
        until.old [] }
    ensures first { IfOk result (IsFirstOf marked.entry.system.now marked.entry.table.now.marking
        marked.entry.depth (λ b. ⊤)) }
    ensures looked { IsLookedAt marked.entry.system.now marked.entry.table.now.marking
        marked.entry.depth until.new [] }
{
    // For its clause: the next number is bounded, so `number + 1` doesn't overflow.
    let _end = marked.table.next();
    while let Some(number) = marked.table.first_starting(*until) {
        let found = least_of(
            alloc,
            marked.system,
            marked.uplinks,
            marked.table,
            marked.depth,
            number,
            room,
        )?;
        if let Some(first) = found {
            return Ok(Some(first));
        }
        pace.pass();
        *until = number + 1;
    }
    Ok(None)
}
