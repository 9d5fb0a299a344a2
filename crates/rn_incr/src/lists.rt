//! The kept lists of enabled bindings.
ghost use Rattle.std.specs.Prelude.{◌≡◌, [], ℕ, IfOk, slice_index_or};
ghost use Rattle.rn_model.specs.Good.{Good};
ghost use Rattle.rn_search.specs.Problems.{HasFitTokens};
ghost use Rattle.rn_channel.specs.link.Uplinks.{AreUplinksOf};
ghost use Rattle.rn_table.specs.Tables.{IsTableOf};
ghost use Rattle.rn_incr.specs.Lists.{AreListsOf, IsListOf};

use crate::held::holders_at;
use crate::kept::KeptLists;
use rn_binding::Candidate;
use rn_channel::Uplinks;
use rn_finder::bindings_of;
use rn_items::{Items, NoMemory};
use rn_model::{Nums, System};
use rn_table::Table;
use std::alloc::Global;
use std::marker::Model;

/// The bindings that start in one instance.
pub type Cands = Items<Candidate>;

/// For each instance of a table the bindings that are enabled there and start in it, in order.
///
/// It keeps a snapshot of the table for which the lists were made, and for each instance which ones may
/// refer to it.
#[derive(Drop)]
pub struct Lists {
    pub(crate) depth: u32,
    pub(crate) table: Table,
    pub(crate) kept: KeptLists,
    pub(crate) holders: Vec<Nums>,
}

impl Model for Lists {
    ghost use Rattle.std.specs.Coded.{codes};
    ghost use Rattle.rn_value.specs.contracts.value.Value as value;
    ghost use Rattle.rn_model.specs.link.MarkingCodes.{marking_code};
    ghost use Rattle.rn_holders.specs.Holders.{HaveHolders};
    ghost use Rattle.rn_incr.specs.Lists.{Listed};

    ghost Value = { Listed };

    ghost coded = { Prim.hlevel (codes, marking_code, value.the_row.coded) };

    ghost view = { λ l. record {
      marking = l.table.marking;
      depth = l.depth;
      lists = l.kept;
    } };

    ghost invariant = { λ l. HaveHolders l.table.marking l.holders.items };
}

/// The list of each number below the next one.
fn lists_at(
    alloc: Global,
    system: &System,
    uplinks: &Uplinks,
    table: &Table,
    depth: u32,
) -> Result<Vec<Cands>, NoMemory>
    requires good { Good system.now }
    requires own { AreUplinksOf system.now uplinks.now }
    requires table { IsTableOf system.now table.now }
    requires tokens { HasFitTokens system.now table.now.marking }
    ensures { IfOk result (λ lists. (n : ℕ) → IsListOf system.now table.now.marking depth n
        (slice_index_or lists.items n [])) }
{
    let mut lists = Vec::with_capacity(alloc, table.next() as usize)?;
    for number in 0..table.next() {
        let list = bindings_of(alloc, system, uplinks, table, depth, number)?;
        lists.push(Items::from_vec(list))?;
    }
    Ok(lists)
}

/// The lists of a table: for each kept instance whose net has a transition without uplink just the
/// bindings that are enabled within the depth and start in it, in the order of `compare_bindings`.
pub fn open_lists(
    alloc: Global,
    system: &System,
    uplinks: &Uplinks,
    table: &Table,
    depth: u32,
) -> Result<Lists, NoMemory>
    requires good { Good system.now }
    requires own { AreUplinksOf system.now uplinks.now }
    requires table { IsTableOf system.now table.now }
    requires tokens { HasFitTokens system.now table.now.marking }
    ensures at { IfOk result (λ lists. (lists.marking ≡ table.now.marking) × (lists.depth ≡ depth)) }
    ensures lists { IfOk result (λ lists. AreListsOf system.now lists) }
{
    let lists = lists_at(alloc, system, uplinks, table, depth)?;
    let kept = KeptLists::open(alloc, lists)?;
    let holders = holders_at(alloc, system, table)?;
    let table = table.snapshot()?;
    Ok(Lists {
        depth,
        table,
        kept,
        holders,
    })
}
