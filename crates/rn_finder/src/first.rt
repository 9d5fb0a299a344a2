//! The first of all bindings that are enabled. Starts are taken in the order of bindings, so the
//! first with a binding has the least one. There each binding that is found bounds the next search,
//! which looks only for lesser ones. What is left after a few of these is listed (`docs/SEARCH.md`,
//! 'The first of all').
ghost use Rattle.std.specs.Prelude.{◌≡◌, ◌≢◌, ◌↔◌, ◌<◌, ⊤, [], length};
ghost use Rattle.std.specs.Prelude.{IfOk, IfSome, IfNone, IsNone, IsTrue, Contains};
ghost use Rattle.std.specs.declared.cmp.Ordering.TheVariants.{Greater};
ghost use Rattle.rn_model.specs.Order.{binding_cmp};
ghost use Rattle.rn_model.specs.declared.binding.Binding.{Binding};
ghost use Rattle.rn_model.specs.Good.{Good};
ghost use Rattle.rn_model.specs.Enabling.{Enabled, DeadAt};
ghost use Rattle.rn_model.specs.Systems.{net_at};
ghost use Rattle.rn_channel.specs.link.Uplinks.{AreUplinksOf};
ghost use Rattle.rn_search.specs.Problems.{HasFitTokens};
ghost use Rattle.rn_choices.specs.Leading.{NoneLeads};
ghost use Rattle.rn_growing.specs.Grown.{HasFewCreations};
ghost use Rattle.rn_search.specs.Sought.{Leads, StartsAt};
ghost use Rattle.rn_table.specs.Tables.{IsTableOf};
ghost use Rattle.rn_finder.specs.First.{IsFirstAmong, IsFirstOf};
ghost use Rattle.rn_finder.specs.Lesser.{IsFirstLed, LeadsBelow};
ghost use Rattle.rn_finder.specs.Straight.{EndsSo};
ghost use Rattle.rn_finder.specs.Starting.{HasStartIn, IsKept, IsSearchable, start_of};

use crate::every::sort_bindings;
use crate::lesser::{Lesser, LesserBranch};
use crate::marked::{Marked, problem_at};
use crate::room::Room;
use crate::starts::{may_start, transition_count};
use crate::straight::{Straight, go_straight};
use rn_binding::Candidate;
use rn_branch::SHARES;
use rn_channel::Uplinks;
use rn_model::System;
use rn_search::Problem;
use rn_table::{Inst, Table};
use rn_value::NoMemory;
use std::alloc::Global;

/// How often a lesser binding is looked for before all that are left are listed.
const TIMES: u32 = 8;

// With which of their tokens choices begin, each time that a lesser binding is looked for: with the
// first, the last, the half of them, three quarters, a quarter, and so on.
fn begin_at(turn: u32) -> usize {
    if turn == 0 {
        return 0;
    }
    let share = ((turn - 1).reverse_bits() >> 8) as usize;
    SHARES.wrapping_add(SHARES - 1).wrapping_sub(share)
}

// The first of some bindings, where there are any.
fn first_of(found: Vec<Candidate>) -> Result<Option<Candidate>, NoMemory>
    ensures { IfOk result (IsFirstAmong found.items) }
{
    let mut sorted = found;
    sort_bindings(&mut sorted)?;
    if sorted.is_empty() {
        return Ok(None);
    }
    Ok(Some(sorted.swap_remove(0)))
}

// A branch without decisions. Its choices of tokens begin with this one of them, or with this share.
fn open_lesser<'a>(
    alloc: Global,
    system: &'a System,
    room: &mut Room,
    first: usize,
) -> LesserBranch<'a>
    requires { HasFewCreations system.now }
    ensures { result.branch ≡ record { system = system.now; decisions = [] } }
{
    LesserBranch {
        alloc,
        branch: room.open(alloc, system, first),
    }
}

// A binding that is less than the known one, or `None` exactly where none is.
fn find_lesser<'a>(
    alloc: Global,
    system: &'a System,
    lesser: &Lesser<'a>,
    room: &mut Room,
    first: usize,
) -> Result<Option<Candidate>, NoMemory>
    requires system { system.now ≡ lesser.now.sought.system }
    requires known { Leads lesser.now.sought [] lesser.now.than }
    ensures found { IfOk result (λ found. IfSome found (λ b.
        LeadsBelow lesser.now.sought lesser.now.than [] b)) }
    ensures none { IfOk result (λ found. IsNone found
        ↔ NoneLeads (LeadsBelow lesser.now.sought lesser.now.than) []) }
{
    // For its clause: the system is good.
    let _system = lesser.sought.system();
    let mut branch = open_lesser(alloc, system, room, first);
    let found = rn_choices::find(alloc, lesser, &mut branch, &mut room.choices);
    room.close(branch.branch);
    found
}

// Just the bindings that are less than the known one.
fn all_lesser<'a>(
    alloc: Global,
    system: &'a System,
    lesser: &Lesser<'a>,
    room: &mut Room,
) -> Result<Vec<Candidate>, NoMemory>
    requires system { system.now ≡ lesser.now.sought.system }
    requires known { Leads lesser.now.sought [] lesser.now.than }
    ensures { IfOk result (λ found. (b : Binding) → Contains found.items b
        ↔ LeadsBelow lesser.now.sought lesser.now.than [] b) }
{
    // For its clause: the system is good.
    let _system = lesser.sought.system();
    let mut branch = open_lesser(alloc, system, room, 0);
    let found = rn_choices::all(alloc, lesser, &mut branch, &mut room.choices);
    room.close(branch.branch);
    found
}

// The first of the bindings that are less than the known one, where there are any: all are listed.
fn first_listed<'a>(
    alloc: Global,
    system: &'a System,
    lesser: &Lesser<'a>,
    room: &mut Room,
) -> Result<Option<Candidate>, NoMemory>
    requires system { system.now ≡ lesser.now.sought.system }
    requires known { Leads lesser.now.sought [] lesser.now.than }
    ensures first { IfOk result (λ first. IfSome first (IsFirstLed lesser.now.sought)) }
    ensures none { IfOk result (λ first.
        IfNone first (IsFirstLed lesser.now.sought lesser.now.than)) }
{
    let found = all_lesser(alloc, system, lesser, room)?;
    first_of(found)
}

// Looks for lesser ones, each below the one before, a few times. Returns whether there is none any
// more.
fn lessen<'a>(
    alloc: Global,
    system: &'a System,
    lesser: &mut Lesser<'a>,
    room: &mut Room,
) -> Result<bool, NoMemory>
    requires system { system.now ≡ lesser.old.sought.system }
    requires known { Leads lesser.old.sought [] lesser.old.than }
    ensures sought { IfOk result (λ _. lesser.new.sought ≡ lesser.old.sought) }
    ensures known { IfOk result (λ _. Leads lesser.new.sought [] lesser.new.than) }
    ensures first { IfOk result (λ done. IsTrue done →
        IsFirstLed lesser.new.sought lesser.new.than) }
{
    for turn in 0..TIMES {
        match find_lesser(alloc, system, lesser, room, begin_at(turn))? {
            Some(found) => lesser.than = found,
            None => return Ok(true),
        }
    }
    Ok(false)
}

// The first binding of a search, of which one is known.
fn first_below<'a>(
    alloc: Global,
    system: &'a System,
    known: Lesser<'a>,
    room: &mut Room,
) -> Result<Candidate, NoMemory>
    requires system { system.now ≡ known.sought.system }
    requires known { Leads known.sought [] known.than }
    ensures { IfOk result (IsFirstLed known.entry.sought) }
{
    let mut lesser = known;
    if lessen(alloc, system, &mut lesser, room)? {
        return Ok(lesser.than);
    }
    match first_listed(alloc, system, &lesser, room)? {
        Some(first) => Ok(first),
        None => Ok(lesser.than),
    }
}

// Searches up to the first choice.
fn search_straight<'a>(
    alloc: Global,
    system: &'a System,
    sought: &Problem<'a>,
    room: &mut Room,
) -> Result<Straight, NoMemory>
    requires { system.now ≡ sought.now.system }
    ensures { IfOk result (EndsSo sought.now) }
{
    // For its clause: the system is good.
    let _system = sought.system();
    let mut branch = room.open(alloc, system, 0);
    let end = go_straight(alloc, sought, &mut branch);
    room.close(branch);
    end
}

// A binding of a search, or `None` exactly where there is none.
fn find_any<'a>(
    alloc: Global,
    system: &'a System,
    sought: &Problem<'a>,
    room: &mut Room,
) -> Result<Option<Candidate>, NoMemory>
    requires { system.now ≡ sought.now.system }
    ensures found { IfOk result (λ found. IfSome found (Leads sought.now [])) }
    ensures none { IfOk result (λ found. IsNone found ↔ NoneLeads (Leads sought.now) []) }
{
    // For its clause: the system is good.
    let _system = sought.system();
    let mut branch = room.open(alloc, system, 0);
    let found = rn_choices::find(alloc, sought, &mut branch, &mut room.choices);
    room.close(branch);
    found
}

// The first binding of a search, where there is one.
fn first_sought<'a>(
    alloc: Global,
    system: &'a System,
    sought: Problem<'a>,
    room: &mut Room,
) -> Result<Option<Candidate>, NoMemory>
    requires { system.now ≡ sought.system }
    ensures { IfOk result (IsFirstOf sought.entry.system sought.entry.marking sought.entry.depth
        (λ b. StartsAt b sought.entry.start)) }
{
    if let Straight::Ended(found) = search_straight(alloc, system, &sought, room)? {
        return Ok(found);
    }
    let found = find_any(alloc, system, &sought, room)?;
    let Some(than) = found else {
        return Ok(None);
    };
    let first = first_below(alloc, system, Lesser { sought, than }, room)?;
    Ok(Some(first))
}

// The first binding that starts with a transition of an instance.
fn first_from(
    alloc: Global,
    marked: Marked<'_>,
    room: &mut Room,
    inst: &Inst,
    transition: u32,
) -> Result<Option<Candidate>, NoMemory>
    requires searched { IsSearchable marked.system.now marked.uplinks.now
        marked.table.now }
    requires kept { IsKept marked.table.now.marking inst.now }
    requires there { transition < length (net_at marked.system.now inst.now.net).transitions }
    ensures { IfOk result (IsFirstOf marked.entry.system.now marked.entry.table.now.marking
        marked.entry.depth
        (λ b. StartsAt b (start_of inst.now.number inst.now.net transition))) }
{
    if !may_start(marked.system, inst, transition) {
        return Ok(None);
    }
    let sought = problem_at(alloc, marked, inst.number(), inst.net(), transition)?;
    first_sought(alloc, marked.system, sought, room)
}

/// The first binding that starts with an instance: its transitions are taken in order, up to one with
/// which a binding starts.
pub(crate) fn first_in(
    alloc: Global,
    marked: Marked<'_>,
    room: &mut Room,
    number: u32,
) -> Result<Option<Candidate>, NoMemory>
    requires { IsSearchable marked.system.now marked.uplinks.now
        marked.table.now }
    ensures { IfOk result (IsFirstOf marked.entry.system.now marked.entry.table.now.marking
        marked.entry.depth (HasStartIn number)) }
{
    let Some(inst) = marked.table.find(number) else {
        return Ok(None);
    };
    let count = transition_count(marked.system, inst.net());
    for t in 0..count {
        let found = first_from(alloc, marked, room, inst, t)?;
        if let Some(first) = found {
            return Ok(Some(first));
        }
    }
    Ok(None)
}

// The first binding: instances are taken in the order of their numbers, up to one with which a binding
// starts.
fn first_at(alloc: Global, marked: Marked<'_>) -> Result<Option<Candidate>, NoMemory>
    requires { IsSearchable marked.system.now marked.uplinks.now
        marked.table.now }
    ensures { IfOk result (IsFirstOf marked.entry.system.now marked.entry.table.now.marking
        marked.entry.depth (λ b. ⊤)) }
{
    // For its clause: the next number is bounded, so `number + 1` doesn't overflow.
    let _end = marked.table.next();
    let mut room = Room::new(alloc);
    let mut from = 0;
    while let Some(number) = marked.table.first_starting(from) {
        let found = first_in(alloc, marked, &mut room, number)?;
        if let Some(first) = found {
            return Ok(Some(first));
        }
        from = number + 1;
    }
    Ok(None)
}

/// The first of all bindings that are enabled at the table within the depth, by `compare_bindings`, or
/// `None` exactly where there is none.
pub fn least(
    alloc: Global,
    system: &System,
    uplinks: &Uplinks,
    table: &Table,
    depth: u32,
) -> Result<Option<Candidate>, NoMemory>
    requires good { Good system.now }
    requires own { AreUplinksOf system.now uplinks.now }
    requires table { IsTableOf system.now table.now }
    requires tokens { HasFitTokens system.now table.now.marking }
    ensures least { IfOk result (λ found. IfSome found (λ b.
        Enabled system.now table.now.marking b depth
        × ((c : Binding) → Enabled system.now table.now.marking c depth →
        binding_cmp b c ≢ Greater))) }
    ensures none { IfOk result (λ found. IsNone found
        ↔ DeadAt system.now table.now.marking depth) }
{
    // For its clauses: the numbers of the instances ascend, and are below the next one.
    let _end = table.next();
    let marked = Marked {
        system,
        uplinks,
        table,
        depth,
    };
    first_at(alloc, marked)
}
