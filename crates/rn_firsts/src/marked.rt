//! What is looked at: a table of a system, with its uplinks and a depth, handed on as one within
//! the crate. `rn_finder` has the like for its own functions, and its public calls take the parts
//! (`docs/SEARCH.md`, 'The first of all').
use rn_channel::Uplinks;
use rn_model::System;
use rn_table::Table;

/// A table of a system with its uplinks, and within how many levels of calls bindings are looked
/// for.
#[derive(Clone, Copy)]
pub(crate) struct Marked<'a> {
    pub system: &'a System,
    pub uplinks: &'a Uplinks,
    pub table: &'a Table,
    pub depth: u32,
}
