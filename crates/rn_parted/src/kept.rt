//! The first of the bindings that start in an instance, kept for each token of one of its places.
//! As the place parts them, the first of all is the first of these, and of the one where the place
//! is empty (`docs/SEARCH.md`, 'A place that parts').
ghost use Rattle.std.specs.Prelude.{◌≡◌, ◌≢◌, ℕ, [], true, length, IfOk, IfSome, Contains};
ghost use Rattle.std.specs.Option.{option_copied};
ghost use Rattle.rn_model.specs.Markings.{tokens_at};
ghost use Rattle.rn_reach.specs.Reach.{DifferAtMostIn};
ghost use Rattle.rn_finder.specs.Starting.{IsSearchable};
ghost use Rattle.rn_parted.specs.Lesser.{least_of, lesser};
ghost use Rattle.rn_parted.specs.Parted.{AreShares, IsKept, IsPartedAt, IsParted};

use crate::alone::first_alone;
use crate::holding::{holders_but, without};
use crate::marked::{Marked, Site};
use crate::parting::place_of;
use crate::places::{is_light, is_same_beside, others_avoid};
use crate::share::Share;
use crate::walking::{Walk, settle_bag};
use indexmap::IndexSet;
use rn_bag::Bag;
use rn_binding::Candidate;
use rn_finder::Room;
use rn_holders::{hold_all, may_reach};
use rn_items::NoMemory;
use rn_model::{Nums, compare_bindings};
use rn_table::Table;
use std::alloc::Global;
use std::cmp::Ordering;
use std::marker::Model;

/// What is kept of one instance: for each token of a place the first binding that starts there with
/// that token alone; a snapshot of the table for which it was made; and which instances may refer
/// to which.
#[derive(Drop)]
pub(crate) struct PartedFirst {
    pub instance: u32,
    place: u32,
    depth: u32,
    table: Table,
    holders: Vec<Nums>,
    rest: Option<Candidate>,
    shares: Vec<Share>,
}

impl Model for PartedFirst {
    ghost use Rattle.std.specs.Coded.{codes};
    ghost use Rattle.rn_value.specs.contracts.value.Value as value;
    ghost use Rattle.rn_model.specs.link.MarkingCodes.{marking_code};
    ghost use Rattle.rn_parted.specs.Parted.{Parted};

    ghost Value = { Parted };

    ghost coded = { Prim.hlevel (codes, marking_code, value.the_row.coded) };

    ghost view = { λ p. record {
      instance = p.instance;
      place = p.place;
      depth = p.depth;
      marking = p.table.marking;
      holders = p.holders.items;
      rest = p.rest;
      shares = p.shares.items;
    } };
}

// The shares of the tokens of a bag.
fn shares_of(
    alloc: Global,
    site: Site<'_>,
    bag: &Bag,
    room: &mut Room,
) -> Result<Vec<Share>, NoMemory>
    requires searched { IsSearchable site.marked.system.now site.marked.uplinks.now
        site.marked.table.now }
    requires bag { bag.now ≡ tokens_at site.marked.table.now.marking site.instance site.place }
    ensures { IfOk result (λ shares. AreShares site.entry.marked.system.now
        site.entry.marked.table.now.marking site.entry.marked.depth site.entry.instance
        site.entry.place bag.now shares.items) }
{
    let found = IndexSet::new(alloc);
    let walk = Walk {
        alloc,
        site,
        found: &found,
    };
    let mut shares = Vec::new(alloc);
    settle_bag(walk, bag, &mut shares, room)?;
    Ok(shares)
}

// The binding of a share, where it has one.
fn first_of(share: &Share) -> Option<&Candidate>
    ensures { option_copied result ≡ share.now.first }
{
    share.first.as_ref()
}

// The one of two that comes first, where there is one.
fn lesser<'a>(a: Option<&'a Candidate>, b: Option<&'a Candidate>) -> Option<&'a Candidate>
    ensures { option_copied result ≡ lesser (option_copied a.entry) (option_copied b.entry) }
{
    let Some(first) = a else {
        return b;
    };
    let Some(second) = b else {
        return a;
    };
    match compare_bindings(first.binding(), second.binding()) {
        Ordering::Less => a,
        Ordering::Equal => a,
        Ordering::Greater => b,
    }
}

impl PartedFirst {
    /// What is to be kept of an instance, where a place with enough tokens parts its bindings.
    pub(crate) fn open(
        alloc: Global,
        marked: Marked<'_>,
        instance: u32,
        room: &mut Room,
    ) -> Result<Option<PartedFirst>, NoMemory>
        requires searched { IsSearchable marked.system.now marked.uplinks.now marked.table.now }
        ensures { IfOk result (IsKept marked.entry.system.now marked.entry.table.now.marking
            marked.entry.depth) }
    {
        let Some(net) = marked.table.net_of(instance) else {
            return Ok(None);
        };
        let Some(place) = place_of(marked.system, marked.table, instance, net) else {
            return Ok(None);
        };
        let Some(bag) = marked.table.bag(instance, place) else {
            return Ok(None);
        };
        let site = Site {
            marked,
            instance,
            place,
        };
        let holders = holders_but(alloc, marked.table, instance)?;
        let rest = first_alone(alloc, site, None, room)?;
        let shares = shares_of(alloc, site, bag, room)?;
        let table = marked.table.snapshot()?;
        Ok(Some(PartedFirst {
            instance,
            place,
            depth: marked.depth,
            table,
            holders,
            rest,
            shares,
        }))
    }

    /// Brings it to another table, which differs at most in these instances. It returns false where
    /// that isn't worth while: where other places of the instance changed, hold many tokens, or
    /// mention what may reach a change. Then, and after an error, it isn't to be used any more.
    pub(crate) fn follow(
        &mut self,
        alloc: Global,
        marked: Marked<'_>,
        changed: &[u32],
        room: &mut Room,
    ) -> Result<bool, NoMemory>
        requires searched { IsSearchable marked.system.now marked.uplinks.now marked.table.now }
        requires depth { self.old.depth ≡ marked.depth }
        ensures { IfOk result (λ yes. yes ≡ true → IsParted marked.entry.system.now self.old →
            DifferAtMostIn changed.now self.old.marking marked.entry.table.now.marking →
            IsPartedAt marked.entry.system.now marked.entry.table.now.marking
            marked.entry.depth self.new) }
    {
        let number = self.instance;
        let earlier = self.table.find(number);
        let Some(before) = earlier else {
            return Ok(false);
        };
        let later = marked.table.find(number);
        let Some(inst) = later else {
            return Ok(false);
        };
        let held = inst.bag(self.place);
        let Some(bag) = held else {
            return Ok(false);
        };
        if !is_light(inst, self.place) {
            return Ok(false);
        }
        if !is_same_beside(before, inst, self.place) {
            return Ok(false);
        }
        let others = without(alloc, changed, number)?;
        hold_all(marked.table, others.as_slice(), &mut self.holders)?;
        let found = may_reach(alloc, self.holders.as_slice(), others.as_slice())?;
        if !others_avoid(inst, self.place, &found, number) {
            return Ok(false);
        }
        let walk = Walk {
            alloc,
            site: Site {
                marked,
                instance: number,
                place: self.place,
            },
            found: &found,
        };
        settle_bag(walk, bag, &mut self.shares, room)?;
        let table = marked.table.snapshot()?;
        self.table = table;
        Ok(true)
    }

    /// The first of the bindings that start in the instance.
    pub(crate) fn first(&self) -> Option<&Candidate>
        ensures { option_copied result ≡ least_of self.now.rest self.now.shares }
    {
        let mut first = self.rest.as_ref();
        for share in self.shares.as_slice() {
            first = lesser(first, first_of(share));
        }
        first
    }
}
