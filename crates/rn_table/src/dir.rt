//! Directories: 32 pages each, behind a pointer that copies of a table share.
ghost use Rattle.std.specs.Prelude.{◌≡◌, ◌<◌, ◌≢◌, ◌%◌, ◌/◌, ℕ, [], length, map, slice_index_or, IfOk, OnOk};
ghost use Rattle.std.specs.Option.{option_map_or};
ghost use Rattle.rn_table.specs.link.Leaves.{Ascending, held_at, held_if};
ghost use Rattle.rn_table.specs.link.LeafSteps.{Grows, HoldsAfterStep};
ghost use Rattle.rn_table.specs.declared.leaf.Words.{Words as PageWords};

use crate::edits::Edit;
use crate::instance::Inst;
use crate::leaf::Words;
use crate::page::{Page, add_shared, edit_shared};
use rn_items::NoMemory;
use std::alloc::Global;
use std::marker::Model;
use std::sync::Arc;

/// How many pages a directory has room for.
pub(crate) const PAGES: usize = 32;

/// Pages, which contracts see as what each of them holds. One that isn't there holds nothing.
#[derive(Drop)]
pub(crate) struct Dir {
    pages: Vec<Option<Arc<Page>>>,
}

impl Model for Dir {
    ghost use Rattle.std.specs.Prelude.{◌≡◌, List, [], length, map};
    ghost use Rattle.std.specs.Coded.{coded_list};
    ghost use Rattle.std.specs.Option.{option_map_or};
    ghost use Rattle.rn_model.specs.Markings.{Instance};
    ghost use Rattle.rn_model.specs.link.MarkingCodes.{instance_code};
    ghost use Rattle.rn_table.specs.declared.dir.TheConstants.{PAGES};

    ghost Value = { List (List Instance) };

    ghost coded = { coded_list (coded_list instance_code) };

    ghost view = { λ dir. map (λ page. option_map_or (λ p. p.value) page []) dir.pages.items };

    ghost invariant = { λ dir. length dir.pages.items ≡ PAGES };
}

impl Dir {
    /// A directory without pages.
    fn new(alloc: Global) -> Result<Dir, NoMemory>
        ensures { IfOk result (λ dir. (i : ℕ) → i < PAGES → slice_index_or dir i [] ≡ []) }
    {
        let mut pages = Vec::with_capacity(alloc, PAGES)?;
        for _ in 0..PAGES {
            pages.push(None)?;
        }
        Ok(Dir { pages })
    }

    /// The same directory with those pages alone of which something is kept. It shares them with the
    /// first.
    fn copy_kept(&self, alloc: Global, words: &[Words]) -> Result<Dir, NoMemory>
        ensures { IfOk result (λ dir. (i : ℕ) (w : PageWords) → i < PAGES → i < length words.now → w ≡ slice_index_or words.now i w → w.kept ≢ 0 → slice_index_or dir i [] ≡ slice_index_or self.now i []) }
    {
        let mut pages = Vec::with_capacity(alloc, PAGES)?;
        for index in 0..PAGES {
            let page = self.kept_page(index, words)?;
            pages.push(page)?;
        }
        Ok(Dir { pages })
    }

    /// The page of an index, where something is kept of it.
    fn kept_page(&self, index: usize, words: &[Words]) -> Result<Option<Arc<Page>>, NoMemory>
        requires { index < PAGES }
        ensures { IfOk result (λ page. (w : PageWords) → index < length words.now → w ≡ slice_index_or words.now index w → w.kept ≢ 0 → option_map_or (λ p. p.value) page [] ≡ slice_index_or self.now index []) }
    {
        if index < words.len() && words[index].kept == 0 {
            return Ok(None);
        }
        copy_page(&self.pages[index])
    }

    /// The page of an index.
    fn page(&self, index: usize) -> Option<&Arc<Page>>
        requires { index < PAGES }
        ensures { option_map_or (λ p. p.now.value) result [] ≡ slice_index_or self.now index [] }
    {
        match &self.pages[index] {
            None => None,
            Some(page) => Some(page),
        }
    }

    /// One more instance in a page.
    fn add(&mut self, alloc: Global, index: usize, kept: u64, inst: Inst) -> Result<(), NoMemory>
        requires { index < PAGES }
        ensures here { OnOk result (Grows kept inst (held_if kept (slice_index_or self.old index [])) (slice_index_or self.new index [])) }
        ensures others { OnOk result ((i : ℕ) → i ≢ index → slice_index_or self.new i [] ≡ slice_index_or self.old i []) }
    {
        let page = &mut self.pages[index];
        add_shared(alloc, page, kept, inst)?;
        Ok(())
    }

    /// One token is taken from a place of an instance of a page or put there.
    fn edit(
        &mut self,
        alloc: Global,
        index: usize,
        kept: u64,
        edit: &Edit<'_>,
    ) -> Result<(), NoMemory>
        requires inside { index < PAGES }
        requires ascending { Ascending (slice_index_or self.old index []) }
        ensures here { OnOk result (HoldsAfterStep kept edit.now (slice_index_or self.old index []) (slice_index_or self.new index [])) }
        ensures others { OnOk result ((i : ℕ) → i ≢ index → slice_index_or self.new i [] ≡ slice_index_or self.old i []) }
    {
        let page = &mut self.pages[index];
        edit_shared(alloc, page, kept, edit)?;
        Ok(())
    }

    /// Lets go of a page.
    fn give_up(&mut self, index: usize)
        requires { index < PAGES }
        ensures { (i : ℕ) → i ≢ index → slice_index_or self.new i [] ≡ slice_index_or self.old i [] }
    {
        self.pages[index] = None;
    }
}

/// The same page, which may not be there.
fn copy_page(page: &Option<Arc<Page>>) -> Result<Option<Arc<Page>>, NoMemory>
    ensures { IfOk result (λ copy. option_map_or (λ p. p.value) copy [] ≡ option_map_or (λ p. p.value) page.now []) }
{
    match page {
        None => Ok(None),
        Some(page) => Ok(Some(Arc::try_clone(page)?)),
    }
}

/// The same directory, which may not be there.
pub(crate) fn copy_dir(dir: &Option<Arc<Dir>>) -> Result<Option<Arc<Dir>>, NoMemory>
    ensures { IfOk result (λ copy. option_map_or (λ d. d.value) copy [] ≡ option_map_or (λ d. d.value) dir.now []) }
{
    match dir {
        None => Ok(None),
        Some(dir) => Ok(Some(Arc::try_clone(dir)?)),
    }
}

/// The page of an index in directories.
pub(crate) fn page_in(dirs: &[Option<Arc<Dir>>], at: usize) -> Option<&Arc<Page>>
    requires { at / PAGES < length dirs.now }
    ensures { option_map_or (λ p. p.now.value) result [] ≡ held_at (map (λ dir. option_map_or (λ d. d.value) dir []) dirs.now) at }
{
    match &dirs[at / PAGES] {
        None => None,
        Some(dir) => dir.page(at % PAGES),
    }
}

/// One more instance in a page of a directory. The words are those of its pages.
pub(crate) fn add_to(
    alloc: Global,
    dir: &mut Option<Arc<Dir>>,
    index: usize,
    kept: u64,
    words: &[Words],
    inst: Inst,
) -> Result<(), NoMemory>
    requires inside { index < PAGES }
    requires there { index < length words.now }
    requires word { (w : PageWords) → w ≡ slice_index_or words.now index w → w.kept ≡ kept }
    ensures here { OnOk result (Grows kept inst (held_if kept (slice_index_or (option_map_or (λ d. d.value) dir.old []) index [])) (slice_index_or (option_map_or (λ d. d.value) dir.new []) index [])) }
    ensures others { OnOk result ((i : ℕ) (w : PageWords) → i < PAGES → i < length words.now → i ≢ index → w ≡ slice_index_or words.now i w → w.kept ≢ 0 → slice_index_or (option_map_or (λ d. d.value) dir.new []) i [] ≡ slice_index_or (option_map_or (λ d. d.value) dir.old []) i []) }
{
    match dir {
        None => {
            let mut made = Dir::new(alloc)?;
            made.add(alloc, index, kept, inst)?;
            *dir = Some(Arc::new(alloc, made)?);
            Ok(())
        }
        Some(shared) => add_to_shared(alloc, shared, index, kept, words, inst),
    }
}

/// The same: in place where nothing shares the directory, and else in a copy of what is kept.
fn add_to_shared(
    alloc: Global,
    dir: &mut Arc<Dir>,
    index: usize,
    kept: u64,
    words: &[Words],
    inst: Inst,
) -> Result<(), NoMemory>
    requires inside { index < PAGES }
    requires there { index < length words.now }
    requires word { (w : PageWords) → w ≡ slice_index_or words.now index w → w.kept ≡ kept }
    ensures here { OnOk result (Grows kept inst (held_if kept (slice_index_or dir.old.value index [])) (slice_index_or dir.new.value index [])) }
    ensures others { OnOk result ((i : ℕ) (w : PageWords) → i < PAGES → i < length words.now → i ≢ index → w ≡ slice_index_or words.now i w → w.kept ≢ 0 → slice_index_or dir.new.value i [] ≡ slice_index_or dir.old.value i []) }
{
    if let Some(own) = Arc::get_mut(dir) {
        return own.add(alloc, index, kept, inst);
    }
    let mut copied = dir.copy_kept(alloc, words)?;
    copied.add(alloc, index, kept, inst)?;
    *dir = Arc::new(alloc, copied)?;
    Ok(())
}

/// One token is taken from a place of an instance of a page of a directory or put there.
pub(crate) fn edit_in(
    alloc: Global,
    dir: &mut Option<Arc<Dir>>,
    index: usize,
    kept: u64,
    words: &[Words],
    edit: &Edit<'_>,
) -> Result<(), NoMemory>
    requires inside { index < PAGES }
    requires there { index < length words.now }
    requires word { (w : PageWords) → w ≡ slice_index_or words.now index w → w.kept ≡ kept }
    requires ascending { Ascending (held_if kept (slice_index_or (option_map_or (λ d. d.value) dir.old []) index [])) }
    ensures here { OnOk result (HoldsAfterStep kept edit.now (held_if kept (slice_index_or (option_map_or (λ d. d.value) dir.old []) index [])) (held_if kept (slice_index_or (option_map_or (λ d. d.value) dir.new []) index []))) }
    ensures others { OnOk result ((i : ℕ) (w : PageWords) → i < PAGES → i < length words.now → i ≢ index → w ≡ slice_index_or words.now i w → w.kept ≢ 0 → slice_index_or (option_map_or (λ d. d.value) dir.new []) i [] ≡ slice_index_or (option_map_or (λ d. d.value) dir.old []) i []) }
{
    match dir {
        None => Ok(()),
        Some(shared) => edit_in_shared(alloc, shared, index, kept, words, edit),
    }
}

/// The same: in place where nothing shares the directory, and else in a copy of what is kept.
fn edit_in_shared(
    alloc: Global,
    dir: &mut Arc<Dir>,
    index: usize,
    kept: u64,
    words: &[Words],
    edit: &Edit<'_>,
) -> Result<(), NoMemory>
    requires inside { index < PAGES }
    requires there { index < length words.now }
    requires word { (w : PageWords) → w ≡ slice_index_or words.now index w → w.kept ≡ kept }
    requires ascending { Ascending (held_if kept (slice_index_or dir.old.value index [])) }
    ensures here { OnOk result (HoldsAfterStep kept edit.now (held_if kept (slice_index_or dir.old.value index [])) (held_if kept (slice_index_or dir.new.value index []))) }
    ensures others { OnOk result ((i : ℕ) (w : PageWords) → i < PAGES → i < length words.now → i ≢ index → w ≡ slice_index_or words.now i w → w.kept ≢ 0 → slice_index_or dir.new.value i [] ≡ slice_index_or dir.old.value i []) }
{
    if kept == 0 {
        return Ok(());
    }
    if let Some(own) = Arc::get_mut(dir) {
        return own.edit(alloc, index, kept, edit);
    }
    let mut copied = dir.copy_kept(alloc, words)?;
    copied.edit(alloc, index, kept, edit)?;
    *dir = Arc::new(alloc, copied)?;
    Ok(())
}

/// Lets go of a page that nothing is kept of, where nothing shares the directory.
pub(crate) fn give_up_page(dir: &mut Option<Arc<Dir>>, index: usize)
    requires { index < PAGES }
    ensures { (i : ℕ) → i ≢ index → slice_index_or (option_map_or (λ d. d.value) dir.new []) i [] ≡ slice_index_or (option_map_or (λ d. d.value) dir.old []) i [] }
{
    match dir {
        None => {}
        Some(shared) => give_up_own(shared, index),
    }
}

fn give_up_own(dir: &mut Arc<Dir>, index: usize)
    requires { index < PAGES }
    ensures { (i : ℕ) → i ≢ index → slice_index_or dir.new.value i [] ≡ slice_index_or dir.old.value i [] }
{
    if let Some(own) = Arc::get_mut(dir) {
        own.give_up(index);
    }
}
