//! All bindings that are enabled. There is a search for each start, and no binding has two starts,
//! so each is listed once. A search finds bindings in an order of its own, so they are sorted at
//! the end (`docs/SEARCH.md`, 'Where it starts').
ghost use Rattle.std.specs.Prelude.{◌≡◌, ◌↔◌, ◌<◌, IfOk, OnOk, Some, ⊤, Contains, length};
ghost use Rattle.std.specs.List.{AllAdjacentBelow};
ghost use Rattle.std.specs.List.Sorted.{IsPermutation, IsSorted};
ghost use Rattle.std.specs.declared.cmp.Ordering.TheVariants.{Less};
ghost use Rattle.rn_model.specs.Order.{binding_cmp};
ghost use Rattle.rn_model.specs.declared.binding.Binding.{Binding};
ghost use Rattle.rn_model.specs.Good.{Good};
ghost use Rattle.rn_model.specs.Enabling.{Enabled};
ghost use Rattle.rn_search.specs.Problems.{HasFitTokens};
ghost use Rattle.rn_model.specs.Systems.{net_at};
ghost use Rattle.rn_channel.specs.link.Uplinks.{AreUplinksOf};
ghost use Rattle.rn_search.specs.Sought.{StartsAt};
ghost use Rattle.rn_table.specs.Tables.{IsTableOf};
ghost use Rattle.rn_finder.specs.Starting.{AreJust, IsKept, IsMore, IsSearchable, start_of};

use crate::marked::{Marked, problem_at};
use crate::room::Room;
use crate::starts::{may_start, transition_count};
use rn_binding::Candidate;
use rn_channel::Uplinks;
use rn_model::{System, compare_bindings};
use rn_table::{Inst, Table};
use rn_value::NoMemory;
use std::alloc::Global;

/// All bindings that start with a transition of an instance.
pub(crate) fn all_from(
    alloc: Global,
    marked: Marked<'_>,
    room: &mut Room,
    inst: &Inst,
    transition: u32,
) -> Result<Vec<Candidate>, NoMemory>
    requires searched { IsSearchable marked.system.now marked.uplinks.now
        marked.table.now }
    requires kept { IsKept marked.table.now.marking inst.now }
    requires there { transition < length (net_at marked.system.now inst.now.net).transitions }
    ensures { IfOk result (λ found. AreJust marked.entry.system.now marked.entry.table.now.marking
        marked.entry.depth (λ b. StartsAt b (start_of inst.now.number inst.now.net transition))
        found.items) }
{
    if !may_start(marked.system, inst, transition) {
        return Ok(Vec::new(alloc));
    }
    let problem = problem_at(alloc, marked, inst.number(), inst.net(), transition)?;
    let mut branch = room.open(alloc, marked.system, 0);
    let found = rn_choices::all(alloc, &problem, &mut branch, &mut room.choices)?;
    room.branch = branch.into_room();
    Ok(found)
}

/// Puts all bindings that start with an instance.
pub(crate) fn put_at(
    alloc: Global,
    marked: Marked<'_>,
    room: &mut Room,
    number: u32,
    found: &mut Vec<Candidate>,
) -> Result<(), NoMemory>
    requires { IsSearchable marked.system.now marked.uplinks.now
        marked.table.now }
    ensures { OnOk result (IsMore marked.entry.system.now marked.entry.table.now.marking
        marked.entry.depth number found.old.items found.new.items) }
{
    let Some(inst) = marked.table.find(number) else {
        return Ok(());
    };
    let count = transition_count(marked.system, inst.net());
    for t in 0..count {
        let mut more = all_from(alloc, marked, room, inst, t)?;
        found.append(&mut more)?;
    }
    Ok(())
}

// All bindings, by the numbers of the instances with which they start.
fn all_of(alloc: Global, marked: Marked<'_>) -> Result<Vec<Candidate>, NoMemory>
    requires { IsSearchable marked.system.now marked.uplinks.now
        marked.table.now }
    ensures { IfOk result (λ found. AreJust marked.entry.system.now marked.entry.table.now.marking
        marked.entry.depth (λ b. ⊤) found.items) }
{
    // For its clause: the next number is bounded, so `number + 1` doesn't overflow.
    let _end = marked.table.next();
    let mut found = Vec::new(alloc);
    let mut room = Room::new(alloc);
    let mut from = 0;
    while let Some(number) = marked.table.first_starting(from) {
        put_at(alloc, marked, &mut room, number, &mut found)?;
        from = number + 1;
    }
    Ok(found)
}

/// Puts bindings in order.
pub(crate) fn sort_bindings(found: &mut Vec<Candidate>) -> Result<(), NoMemory>
    ensures sorted { OnOk result (IsSorted binding_cmp found.new.items) }
    ensures same { IsPermutation found.old.items found.new.items }
{
    found.sort_by(|a, b| compare_bindings(a.binding(), b.binding()))?;
    Ok(())
}

/// Just the bindings that are enabled at the table within the depth, each once, ascending by
/// `compare_bindings`.
pub fn all_bindings(
    alloc: Global,
    system: &System,
    uplinks: &Uplinks,
    table: &Table,
    depth: u32,
) -> Result<Vec<Candidate>, NoMemory>
    requires good { Good system.now }
    requires own { AreUplinksOf system.now uplinks.now }
    requires table { IsTableOf system.now table.now }
    requires tokens { HasFitTokens system.now table.now.marking }
    ensures just { IfOk result (λ found. (b : Binding) →
        Contains found.items b ↔ Enabled system.now table.now.marking b depth) }
    ensures ascending { IfOk result (λ found. AllAdjacentBelow (λ b c. binding_cmp b c ≡ Less)
        found.items (length found.items)) }
{
    // For its clauses: the numbers of the instances ascend, and are below the next one.
    let _end = table.next();
    let marked = Marked {
        system,
        uplinks,
        table,
        depth,
    };
    let mut found = all_of(alloc, marked)?;
    sort_bindings(&mut found)?;
    Ok(found)
}
