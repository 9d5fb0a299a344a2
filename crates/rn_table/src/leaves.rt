//! The pages of a table with their words.
ghost use Rattle.std.specs.Prelude.{◌≡◌, ◌<◌, ◌++◌, ◌≢◌, ◌/◌, ◌%◌, ◌-◌, ◌*◌, ◌≤◌, ℕ, [], ◌∷◌, drop, length, map, slice_index_or, false, IsTrue, IfOk, OnOk};
ghost use Rattle.std.specs.List.{AllByRecursion};
ghost use Rattle.std.specs.Option.{option_map_or};
ghost use Rattle.rn_bag.specs.Words.{has_bit};
ghost use Rattle.rn_table.specs.link.Leaves.{HasSortedPlaces, IsLeaf, Leaf as Seen, held_at, leaf_with, leaves_by, page_of};
ghost use Rattle.rn_table.specs.link.LeafSteps.{IsDropped, IsEdited, IsGrown, OneChanges};
ghost use Rattle.rn_table.specs.declared.leaf.Words.{Words as PageWords};

use crate::dir::{Dir, PAGES, add_to, copy_dir, edit_in, give_up_page, page_in};
use crate::edits::Edit;
use crate::instance::Inst;
use crate::leaf::{Leaf, Words, bit};
use rn_bag::words::{self, ROOM};
use rn_items::NoMemory;
use std::alloc::Global;
use std::marker::Model;
use std::sync::Arc;

/// Pages with their words, which contracts see as a list. Copies share the pages, 32 by one pointer,
/// and have words of their own.
///
/// A directory none of whose pages has a kept instance is given up.
#[derive(Drop)]
pub(crate) struct Leaves {
    dirs: Vec<Option<Arc<Dir>>>,
    words: Vec<Words>,
}

impl Model for Leaves {
    ghost use Rattle.std.specs.Prelude.{◌≤◌, ◌*◌, List, [], length, map};
    ghost use Rattle.std.specs.Coded.{coded_list};
    ghost use Rattle.std.specs.Option.{option_map_or};
    ghost use Rattle.rn_table.specs.link.Leaves.{Leaf as Seen, held_at, leaf_code, leaves_by};
    ghost use Rattle.rn_table.specs.declared.dir.TheConstants.{PAGES};

    ghost Value = { List Seen };

    ghost coded = { coded_list leaf_code };

    ghost view = { λ leaves. leaves_by (held_at (map (λ dir. option_map_or (λ d. d.value) dir []) leaves.dirs.items)) leaves.words.items };

    ghost invariant = { λ leaves. length leaves.words.items ≤ PAGES * length leaves.dirs.items };
}

impl Leaves {
    /// No page yet.
    pub(crate) fn new(alloc: Global) -> Leaves
        ensures { result ≡ [] }
    {
        Leaves {
            dirs: Vec::new(alloc),
            words: Vec::new(alloc),
        }
    }

    /// Where its memory comes from.
    pub(crate) fn allocator(&self) -> Global {
        *self.words.allocator()
    }

    /// How many pages there are.
    pub(crate) fn len(&self) -> usize
        ensures { result ≡ length self.now }
    {
        self.words.len()
    }

    /// The same, which shares the pages with the first.
    pub(crate) fn copy(&self) -> Result<Leaves, NoMemory>
        ensures { IfOk result (λ leaves. leaves ≡ self.now) }
    {
        let alloc = self.allocator();
        let mut dirs = Vec::with_capacity(alloc, self.dirs.len())?;
        for dir in self.dirs.as_slice() {
            dirs.push(copy_dir(dir)?)?;
        }
        let mut words = Vec::new(alloc);
        words.extend_from_slice(self.words.as_slice())?;
        Ok(Leaves { dirs, words })
    }

    /// The page of an index.
    pub(crate) fn leaf(&self, at: usize) -> Leaf<'_>
        requires { at < length self.now }
        ensures { result ≡ slice_index_or self.now at result }
    {
        let Words { kept, starting } = self.words[at];
        let page = if kept == 0 {
            None
        } else {
            page_in(self.dirs.as_slice(), at)
        };
        Leaf {
            page,
            kept,
            starting,
        }
    }

    /// Which numbers of the page of an index may start.
    pub(crate) fn starting(&self, at: usize) -> u64
        requires { at < length self.now }
        ensures { (leaf : Seen) → leaf ≡ slice_index_or self.now at leaf → result ≡ leaf.starting }
    {
        self.words[at].starting
    }

    /// One more page, of which nothing is kept yet.
    pub(crate) fn push(&mut self) -> Result<(), NoMemory>
        ensures { OnOk result (self.new ≡ self.old ++ leaf_with [] 0 0 ∷ []) }
    {
        make_room(&mut self.dirs, self.words.len())?;
        self.words.push(Words {
            kept: 0,
            starting: 0,
        })?;
        Ok(())
    }

    /// One more instance, after all that its page holds.
    pub(crate) fn add(&mut self, at: usize, inst: Inst, starts: bool) -> Result<(), NoMemory>
        requires number { 0 < inst.number }
        requires sorted { HasSortedPlaces inst }
        requires inside { at < length self.old }
        requires leaf { (leaf : Seen) → leaf ≡ slice_index_or self.old at leaf → IsLeaf (page_of inst.number) leaf × AllByRecursion (λ i. i.number < inst.number) leaf.held }
        ensures { OnOk result (OneChanges (IsGrown inst starts) at self.old self.new) }
    {
        let alloc = self.allocator();
        let bit = bit(inst.number());
        let dir = &mut self.dirs[at / PAGES];
        let old = self.words[at];
        let rest = words_of_dir(self.words.as_slice(), at);
        add_to(alloc, dir, at % PAGES, old.kept, rest, inst)?;
        let starting = if starts {
            words::with_bit(old.starting, bit)
        } else {
            old.starting
        };
        self.words[at] = Words {
            kept: words::with_bit(old.kept, bit),
            starting,
        };
        Ok(())
    }

    /// One token is taken from a place of an instance or put there.
    pub(crate) fn edit(&mut self, at: usize, edit: &Edit<'_>) -> Result<(), NoMemory>
        requires inside { at < length self.old }
        requires leaf { (leaf : Seen) → leaf ≡ slice_index_or self.old at leaf → IsLeaf (page_of edit.now.inst) leaf }
        ensures { OnOk result (OneChanges (IsEdited edit.now) at self.old self.new) }
    {
        let alloc = self.allocator();
        let dir = &mut self.dirs[at / PAGES];
        let kept = self.words[at].kept;
        let rest = words_of_dir(self.words.as_slice(), at);
        edit_in(alloc, dir, at % PAGES, kept, rest, edit)?;
        Ok(())
    }

    /// An instance is kept no more. It takes no memory.
    pub(crate) fn drop_one(&mut self, at: usize, number: u32)
        requires number { 0 < number }
        requires inside { at < length self.old }
        requires leaf { (leaf : Seen) → leaf ≡ slice_index_or self.old at leaf → IsLeaf (page_of number) leaf }
        ensures { OneChanges (IsDropped number) at self.old self.new }
    {
        let bit = bit(number);
        let Words { kept, starting } = self.words[at];
        let kept = without(kept, bit);
        self.words[at] = Words {
            kept,
            starting: without(starting, bit),
        };
        if kept == 0 {
            give_up(&mut self.dirs, self.words.as_slice(), at);
        }
    }
}

/// The words of a page's directory and of those after it.
fn words_of_dir(words: &[Words], at: usize) -> &[Words]
    requires { at < length words.now }
    ensures { result.now ≡ drop (at - at % PAGES) words.now }
{
    let first = at - at % PAGES;
    &words[first..]
}

/// There is a directory for one more page.
fn make_room(dirs: &mut Vec<Option<Arc<Dir>>>, pages: usize) -> Result<(), NoMemory>
    requires { pages ≤ PAGES * length dirs.old.items }
    ensures same { OnOk result ((i : ℕ) → held_at (map (λ dir. option_map_or (λ d. d.value) dir []) dirs.new.items) i ≡ held_at (map (λ dir. option_map_or (λ d. d.value) dir []) dirs.old.items) i) }
    ensures room { OnOk result (pages < PAGES * length dirs.new.items) }
    ensures more { length dirs.old.items ≤ length dirs.new.items }
{
    if pages / PAGES < dirs.len() {
        return Ok(());
    }
    dirs.push(None)?;
    Ok(())
}

/// The set without a number. An empty one stays empty.
fn without(word: u64, bit: usize) -> u64
    requires { bit < ROOM }
    ensures gone { has_bit result bit ≡ false }
    ensures others { (i : ℕ) → i < ROOM → i ≢ bit → has_bit result i ≡ has_bit word i }
    ensures none { word ≡ 0 → result ≡ 0 }
{
    if word == 0 {
        return word;
    }
    words::without_bit(word, bit)
}

/// Lets go of a page of which nothing is kept, where no copy shares its directory, and of the directory
/// where nothing of it is kept. A page of which nothing is kept isn't seen, whether it is there or not.
fn give_up(dirs: &mut Vec<Option<Arc<Dir>>>, words: &[Words], at: usize)
    requires inside { at / PAGES < length dirs.old.items }
    requires words { at < length words.now }
    requires none { (w : PageWords) → w ≡ slice_index_or words.now at w → w.kept ≡ 0 }
    ensures same { leaves_by (held_at (map (λ dir. option_map_or (λ d. d.value) dir []) dirs.new.items)) words.now ≡ leaves_by (held_at (map (λ dir. option_map_or (λ d. d.value) dir []) dirs.old.items)) words.now }
    ensures len { length dirs.new.items ≡ length dirs.old.items }
{
    let rest = words_of_dir(words, at);
    let dir = &mut dirs[at / PAGES];
    if none_kept(rest) {
        *dir = None;
    } else {
        give_up_page(dir, at % PAGES);
    }
}

/// Whether nothing is kept of the first 32 pages with these words.
fn none_kept(words: &[Words]) -> bool
    ensures { IsTrue result → ((i : ℕ) (w : PageWords) → i < PAGES → i < length words.now → w ≡ slice_index_or words.now i w → w.kept ≡ 0) }
{
    for index in 0..PAGES {
        if !is_none_kept(words, index) {
            return false;
        }
    }
    true
}

fn is_none_kept(words: &[Words], index: usize) -> bool
    ensures { IsTrue result → ((w : PageWords) → index < length words.now → w ≡ slice_index_or words.now index w → w.kept ≡ 0) }
{
    index >= words.len() || words[index].kept == 0
}
