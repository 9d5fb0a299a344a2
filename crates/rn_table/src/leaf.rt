//! A page of the table with the words beside it.
ghost use Rattle.std.specs.Prelude.{◌≡◌, ◌<◌, ◌++◌, ℕ, map, true, false, IfOk, IfSome, IfNone};
ghost use Rattle.std.specs.Option.{option_copied};
ghost use Rattle.rn_table.specs.link.Leaves.{Ascending, IsLeaf, bit_of, kept_in, numbered};
ghost use Rattle.rn_bag.specs.Words.{has_bit};

use crate::instance::Inst;
use crate::page::{Page, is_kept};
use rn_bag::words::{self, ROOM};
use rn_items::NoMemory;
use std::marker::Model;
use std::sync::Arc;

/// Which of the numbers of a page are kept, and which may start.
#[derive(Clone, Copy)]
pub(crate) struct Words {
    pub(crate) kept: u64,
    pub(crate) starting: u64,
}

/// A page that copies share, and which of its numbers are kept and which may start. It may hold
/// instances that are kept no more.
#[derive(Drop)]
pub(crate) struct Leaf<'a> {
    pub(crate) page: Option<&'a Arc<Page>>,
    pub(crate) kept: u64,
    pub(crate) starting: u64,
}

impl<'a> Model for Leaf<'a> {
    ghost use Rattle.std.specs.Prelude.{[]};
    ghost use Rattle.std.specs.Option.{option_map_or};
    ghost use Rattle.rn_table.specs.link.Leaves.{Leaf as Seen, leaf_code};

    ghost Value = { Seen };

    ghost coded = { leaf_code };

    ghost view = { λ leaf. record { held = option_map_or (λ page. page.now.value) leaf.page []; kept = leaf.kept; starting = leaf.starting } };
}

/// The index of a number in its page.
pub(crate) fn bit(number: u32) -> usize
    ensures index { result ≡ bit_of number }
    ensures bound { result < ROOM }
{
    number.saturating_sub(1) as usize % ROOM
}

impl<'a> Leaf<'a> {
    /// The kept instance of a number.
    pub(crate) fn get(&self, number: u32) -> Option<&'a Inst>
        requires { Ascending self.now.held }
        ensures { option_copied result ≡ numbered number (kept_in self.now) }
    {
        if !is_kept(self.kept, number) {
            return None;
        }
        match self.page {
            None => None,
            Some(page) => page.get(number),
        }
    }

    /// The page, where some of its numbers are kept.
    pub(crate) fn page(&self) -> Option<&'a Arc<Page>>
        requires { (k : ℕ) × IsLeaf k self.now }
        ensures held { IfSome result (λ page. page.now.value ≡ self.now.held) }
        ensures kept { IfSome result (λ page. (bit : ℕ) × (bit < ROOM) × (has_bit self.now.kept bit ≡ true)) }
        ensures none { IfNone result ((bit : ℕ) → bit < ROOM → has_bit self.now.kept bit ≡ false) }
    {
        if words::first_from(self.kept, 0) == ROOM {
            return None;
        }
        self.page
    }

    /// The kept instances' numbers after others.
    pub(crate) fn append_to(&self, numbers: &mut Vec<u32>) -> Result<(), NoMemory>
        ensures { IfOk result (λ _. numbers.new.items ≡ numbers.old.items ++ map (λ i. i.number) (kept_in self.now)) }
    {
        match self.page {
            None => Ok(()),
            Some(page) => page.append_to(self.kept, numbers),
        }
    }
}
