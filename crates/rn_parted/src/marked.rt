//! What is looked at, handed on as one within the crate: a table of a system, and a place of an
//! instance in it (`docs/SEARCH.md`, 'A place that parts').
use rn_channel::Uplinks;
use rn_model::System;
use rn_table::Table;

/// A table of a system with its uplinks, and within how many levels of calls bindings are looked
/// for.
#[derive(Clone, Copy)]
pub(crate) struct Marked<'a> {
    pub system: &'a System,
    pub uplinks: &'a Uplinks,
    pub table: &'a Table,
    pub depth: u32,
}

/// A place of an instance of such a table.
#[derive(Clone, Copy)]
pub(crate) struct Site<'a> {
    pub marked: Marked<'a>,
    pub instance: u32,
    pub place: u32,
}
