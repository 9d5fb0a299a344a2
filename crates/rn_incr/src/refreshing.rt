//! Lists after a change.
ghost use Rattle.std.specs.Prelude.{◌≡◌, ℕ, [], IfOk, OnOk, OnErr, slice_index_or};
ghost use Rattle.rn_model.specs.Good.{Good};
ghost use Rattle.rn_model.specs.Markings.{Marking};
ghost use Rattle.rn_search.specs.Problems.{HasFitTokens};
ghost use Rattle.rn_channel.specs.link.Uplinks.{AreUplinksOf};
ghost use Rattle.rn_table.specs.Tables.{IsTableOf};
ghost use Rattle.rn_reach.specs.Reach.{DifferAtMostIn};
ghost use Rattle.rn_holders.specs.Holders.{HaveHolders};
ghost use Rattle.rn_incr.specs.Lists.{AreListsOf, IsListOf, IsNumberOf, IsTouched};

use crate::fresh::fresh_lists;
use crate::kept::KeptLists;
use crate::lists::Lists;
use crate::touched::count_starting;
use rn_channel::Uplinks;
use rn_holders::{hold_all, reaching};
use rn_items::NoMemory;
use rn_model::{Nums, System};
use rn_table::Table;
use std::alloc::Global;

// The lists of the instances that reach a changed one are made anew. It returns how many of these may
// start a firing. All memory is taken before a list changes.
fn remake(
    alloc: Global,
    system: &System,
    uplinks: &Uplinks,
    table: &Table,
    depth: u32,
    holders: &[Nums],
    changed: &[u32],
    kept: &mut KeptLists,
) -> Result<u64, NoMemory>
    requires good { Good system.now }
    requires own { AreUplinksOf system.now uplinks.now }
    requires table { IsTableOf system.now table.now }
    requires tokens { HasFitTokens system.now table.now.marking }
    requires held { HaveHolders table.now.marking holders.now }
    ensures lists { OnOk result ((m : Marking) → DifferAtMostIn changed.now m table.now.marking →
        ((n : ℕ) → IsListOf system.now m depth n (slice_index_or kept.old n [])) →
        (n : ℕ) → IsListOf system.now table.now.marking depth n
        (slice_index_or kept.new n [])) }
    ensures number { IfOk result
        (IsNumberOf (IsTouched system.now table.now.marking changed.now)) }
    ensures err { OnErr result (kept.new ≡ kept.old) }
{
    let touched = reaching(alloc, table, holders, changed)?;
    let numbers = touched.as_slice();
    let fresh = fresh_lists(alloc, system, uplinks, table, depth, numbers)?;
    let count = count_starting(system, table, numbers);
    let end = table.next() as usize;
    kept.put(end, numbers, fresh)?;
    Ok(count)
}

impl Lists {
    /// The lists of another table, which differs from the one before at most in these instances. It
    /// returns how many kept instances with a transition without uplink reach one of them; only their
    /// lists are made anew.
    ///
    /// Each that reaches a changed instance is found from these backwards, so the others aren't looked
    /// at. All memory is taken before a list changes.
    pub fn refresh(
        &mut self,
        system: &System,
        uplinks: &Uplinks,
        table: &Table,
        changed: &[u32],
    ) -> Result<u64, NoMemory>
        requires good { Good system.now }
        requires own { AreUplinksOf system.now uplinks.now }
        requires table { IsTableOf system.now table.now }
        requires tokens { HasFitTokens system.now table.now.marking }
        requires lists { AreListsOf system.now self.old }
        requires changed { DifferAtMostIn changed.now self.old.marking table.now.marking }
        ensures at { OnOk result ((self.new.marking ≡ table.now.marking)
            × (self.new.depth ≡ self.old.depth)) }
        ensures lists { OnOk result (AreListsOf system.now self.new) }
        ensures number { IfOk result
            (IsNumberOf (IsTouched system.now table.now.marking changed.now)) }
        ensures err { OnErr result (self.new ≡ self.old) }
    {
        hold_all(table, changed, &mut self.holders)?;
        let kept = table.snapshot()?;
        let alloc = *self.holders.allocator();
        let count = remake(
            alloc,
            system,
            uplinks,
            table,
            self.depth,
            self.holders.as_slice(),
            changed,
            &mut self.kept,
        )?;
        self.table = kept;
        Ok(count)
    }
}
