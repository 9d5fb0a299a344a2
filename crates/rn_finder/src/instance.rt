//! The bindings that start in one instance, and the first of them. What starts there depends only
//! on the instances that it reaches, so least runs and kept lists ask for one instance, and ask
//! again only after a change that may have reached it (`docs/SEARCH.md`, 'What a start depends
//! on').
ghost use Rattle.std.specs.Prelude.{◌≡◌, ◌↔◌, IfOk, Contains, length};
ghost use Rattle.std.specs.List.{AllAdjacentBelow};
ghost use Rattle.std.specs.declared.cmp.Ordering.TheVariants.{Less};
ghost use Rattle.rn_model.specs.Order.{binding_cmp};
ghost use Rattle.rn_model.specs.declared.binding.Binding.{Binding};
ghost use Rattle.rn_model.specs.Good.{Good};
ghost use Rattle.rn_model.specs.Enabling.{Enabled};
ghost use Rattle.rn_search.specs.Problems.{HasFitTokens};
ghost use Rattle.rn_channel.specs.link.Uplinks.{AreUplinksOf};
ghost use Rattle.rn_table.specs.Tables.{IsTableOf};
ghost use Rattle.rn_finder.specs.First.{IsFirstOf};
ghost use Rattle.rn_finder.specs.Starting.{HasStartIn};

use crate::every::{put_at, sort_bindings};
use crate::first::first_in;
use crate::marked::Marked;
use crate::room::Room;
use rn_binding::Candidate;
use rn_channel::Uplinks;
use rn_model::System;
use rn_table::Table;
use rn_value::NoMemory;
use std::alloc::Global;

/// Just the bindings that are enabled at the table within the depth and start in this instance, each
/// once, ascending by `compare_bindings`. With an instance that isn't kept none starts.
pub fn bindings_of(
    alloc: Global,
    system: &System,
    uplinks: &Uplinks,
    table: &Table,
    depth: u32,
    instance: u32,
) -> Result<Vec<Candidate>, NoMemory>
    requires good { Good system.now }
    requires own { AreUplinksOf system.now uplinks.now }
    requires table { IsTableOf system.now table.now }
    requires tokens { HasFitTokens system.now table.now.marking }
    ensures just { IfOk result (λ found. (b : Binding) → Contains found.items b
        ↔ (Enabled system.now table.now.marking b depth × HasStartIn instance b)) }
    ensures ascending { IfOk result (λ found. AllAdjacentBelow (λ b c. binding_cmp b c ≡ Less)
        found.items (length found.items)) }
{
    // For its clauses: the numbers of the instances ascend, and are below the next one.
    let _end = table.next();
    let marked = Marked {
        system,
        uplinks,
        table,
        depth,
    };
    let mut found = Vec::new(alloc);
    let mut room = Room::new(alloc);
    put_at(alloc, marked, &mut room, instance, &mut found)?;
    sort_bindings(&mut found)?;
    Ok(found)
}

/// The first of the bindings that are enabled at the table within the depth and start in this
/// instance, by `compare_bindings`, or `None` exactly where none does. The room is lent.
pub fn least_of(
    alloc: Global,
    system: &System,
    uplinks: &Uplinks,
    table: &Table,
    depth: u32,
    instance: u32,
    room: &mut Room,
) -> Result<Option<Candidate>, NoMemory>
    requires good { Good system.now }
    requires own { AreUplinksOf system.now uplinks.now }
    requires table { IsTableOf system.now table.now }
    requires tokens { HasFitTokens system.now table.now.marking }
    ensures { IfOk result (IsFirstOf system.now table.now.marking depth (HasStartIn instance)) }
{
    // For its clauses: the numbers of the instances ascend, and are below the next one.
    let _end = table.next();
    let marked = Marked {
        system,
        uplinks,
        table,
        depth,
    };
    first_in(alloc, marked, room, instance)
}
