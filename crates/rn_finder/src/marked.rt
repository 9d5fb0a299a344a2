//! What is searched: a table of a system, with its uplinks and a depth. That is the same for all
//! starts of one call, so it is handed on as one, and a problem for a branch is made of it and of
//! one start (`docs/SEARCH.md`, 'Where it starts').
ghost use Rattle.std.specs.Prelude.{◌≡◌, IfOk};
ghost use Rattle.rn_search.specs.Missing.{MayStart};
ghost use Rattle.rn_finder.specs.Starting.{IsSearchable, start_of};

use crate::starts::start_at;
use rn_channel::Uplinks;
use rn_model::System;
use rn_search::Problem;
use rn_table::Table;
use rn_value::NoMemory;
use std::alloc::Global;

/// A table of a system with its uplinks, and within how many levels of calls bindings are looked
/// for.
#[derive(Clone, Copy)]
pub(crate) struct Marked<'a> {
    pub system: &'a System,
    pub uplinks: &'a Uplinks,
    pub table: &'a Table,
    pub depth: u32,
}

/// What is looked for with a transition of an instance as the start.
pub(crate) fn problem_at<'a>(
    alloc: Global,
    marked: Marked<'a>,
    number: u32,
    net: u32,
    transition: u32,
) -> Result<Problem<'a>, NoMemory>
    requires searched { IsSearchable marked.system.now marked.uplinks.now
        marked.table.now }
    requires starts { MayStart marked.system.now marked.table.now.marking
        (start_of number net transition) }
    ensures { IfOk result (λ problem. problem ≡ record { system = marked.entry.system.now; marking = marked.entry.table.now.marking; depth = marked.entry.depth; start = start_of number net transition }) }
{
    let start = start_at(alloc, number, net, transition)?;
    Ok(Problem::new(
        marked.system,
        marked.uplinks,
        marked.table,
        marked.depth,
        start,
    ))
}
