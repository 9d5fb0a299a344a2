//! Lists that are made anew.
ghost use Rattle.std.specs.Prelude.{◌≡◌, IfOk, map, All};
ghost use Rattle.rn_model.specs.Good.{Good};
ghost use Rattle.rn_search.specs.Problems.{HasFitTokens};
ghost use Rattle.rn_channel.specs.link.Uplinks.{AreUplinksOf};
ghost use Rattle.rn_table.specs.Tables.{IsTableOf};
ghost use Rattle.rn_incr.specs.Lists.{IsListOf};

use crate::lists::Cands;
use rn_channel::Uplinks;
use rn_finder::bindings_of;
use rn_items::{Items, NoMemory};
use rn_model::System;
use rn_table::Table;
use std::alloc::Global;

/// The new list of an instance.
#[derive(Drop)]
pub(crate) struct Fresh {
    pub number: u32,
    pub list: Cands,
}

/// The lists of these instances at a table.
pub(crate) fn fresh_lists(
    alloc: Global,
    system: &System,
    uplinks: &Uplinks,
    table: &Table,
    depth: u32,
    numbers: &[u32],
) -> Result<Vec<Fresh>, NoMemory>
    requires good { Good system.now }
    requires own { AreUplinksOf system.now uplinks.now }
    requires table { IsTableOf system.now table.now }
    requires tokens { HasFitTokens system.now table.now.marking }
    ensures numbers { IfOk result (λ fresh. map (λ f. f.number) fresh.items ≡ numbers.now) }
    ensures lists { IfOk result (λ fresh.
        All (λ f. IsListOf system.now table.now.marking depth f.number f.list) fresh.items) }
{
    let mut fresh = Vec::with_capacity(alloc, numbers.len())?;
    for number in numbers {
        let list = bindings_of(alloc, system, uplinks, table, depth, *number)?;
        fresh.push(Fresh {
            number: *number,
            list: Items::from_vec(list),
        })?;
    }
    Ok(fresh)
}
