//! A page: up to 64 instances, each behind a pointer that copies share.
ghost use Rattle.std.specs.Prelude.{◌≡◌, ◌<◌, ◌≤◌, [], ◌∷◌, ◌++◌, length, take, drop, map, filter, slice_index_or, nat_eq, false, Some, IfOk, IfSome, IfNone, OnOk, OnErr};
ghost use Rattle.std.specs.List.{AllByRecursion};
ghost use Rattle.std.specs.Option.{option_copied, option_map_or};
ghost use Rattle.rn_model.specs.Markings.{Instance};
ghost use Rattle.rn_bag.specs.Words.{has_bit};
ghost use Rattle.rn_table.specs.link.Leaves.{Ascending, bit_of, has_number, held_if, numbered};
ghost use Rattle.rn_table.specs.link.LeafSteps.{Grows, HoldsAfterStep};
ghost use Rattle.rn_table.specs.link.Steps.{after_step};

use crate::edits::Edit;
use crate::instance::Inst;
use rn_bag::words;
use rn_items::NoMemory;
use std::alloc::Global;
use std::marker::Model;
use std::sync::Arc;

/// A page, which contracts see as the list of the instances that it holds.
#[derive(Drop)]
pub struct Page {
    instances: Vec<Arc<Inst>>,
}

impl Model for Page {
    ghost use Rattle.std.specs.Prelude.{List, map};
    ghost use Rattle.std.specs.Coded.{coded_list};
    ghost use Rattle.rn_model.specs.Markings.{Instance};
    ghost use Rattle.rn_model.specs.link.MarkingCodes.{instance_code};

    ghost Value = { List Instance };

    ghost coded = { coded_list instance_code };

    ghost view = { λ page. map (λ inst. inst.value) page.instances.items };
}

impl Page {
    /// How many instances the page holds.
    pub fn len(&self) -> usize
        ensures { result ≡ length self.now }
    {
        self.instances.len()
    }

    /// A page of one instance.
    pub(crate) fn of_one(alloc: Global, inst: Inst) -> Result<Page, NoMemory>
        ensures { IfOk result (λ page. page ≡ inst ∷ []) }
    {
        let mut instances = Vec::with_capacity(alloc, 1)?;
        instances.push(Arc::new(alloc, inst)?)?;
        Ok(Page { instances })
    }

    /// The index of the instance of a number, by halving.
    fn index_of(&self, number: u32) -> Option<usize>
        requires { Ascending self.now }
        ensures inside { IfSome result (λ i. i < length self.now) }
        ensures here { IfSome result (λ i. (d : Instance) → (slice_index_or self.now i d).number ≡ number) }
        ensures none { IfNone result (AllByRecursion (λ i. nat_eq i.number number ≡ false) self.now) }
    {
        let low = self.first_from(number);
        if low < self.instances.len() && self.instances[low].number() == number {
            return Some(low);
        }
        None
    }

    /// How many instances have a lower number.
    fn first_from(&self, number: u32) -> usize
        requires { Ascending self.now }
        ensures bound { result ≤ length self.now }
        ensures below { AllByRecursion (λ i. i.number < number) (take result self.now) }
        ensures rest { AllByRecursion (λ i. number ≤ i.number) (drop result self.now) }
    {
        let mut low = 0;
        let mut high = self.instances.len();
        while low < high {
            let middle = low + (high - low) / 2;
            if self.instances[middle].number() < number {
                low = middle + 1;
            } else {
                high = middle;
            }
        }
        low
    }

    /// The instance of a number.
    pub(crate) fn get(&self, number: u32) -> Option<&Inst>
        requires { Ascending self.now }
        ensures { option_copied result ≡ numbered number self.now }
    {
        match self.index_of(number) {
            None => None,
            Some(index) => Some(&self.instances[index]),
        }
    }

    /// The same page with its kept instances alone, which it shares with the first.
    pub(crate) fn copy_kept(&self, alloc: Global, kept: u64) -> Result<Page, NoMemory>
        ensures { IfOk result (λ page. page ≡ filter (has_number kept) self.now) }
    {
        let mut instances = Vec::with_capacity(alloc, self.instances.len())?;
        for inst in self.instances.as_slice() {
            if is_kept(kept, inst.number()) {
                instances.push(Arc::try_clone(inst)?)?;
            }
        }
        Ok(Page { instances })
    }

    /// The numbers of its kept instances after others.
    pub(crate) fn append_to(&self, kept: u64, numbers: &mut Vec<u32>) -> Result<(), NoMemory>
        ensures { IfOk result (λ _. numbers.new.items ≡ numbers.old.items ++ map (λ i. i.number) (filter (has_number kept) self.now)) }
    {
        for inst in self.instances.as_slice() {
            if is_kept(kept, inst.number()) {
                numbers.push(inst.number())?;
            }
        }
        Ok(())
    }

    /// One more instance.
    pub(crate) fn add(&mut self, alloc: Global, inst: Inst) -> Result<(), NoMemory>
        ensures ok { OnOk result (self.new ≡ self.old ++ inst ∷ []) }
        ensures err { OnErr result (self.new ≡ self.old) }
    {
        self.instances.push(Arc::new(alloc, inst)?)?;
        Ok(())
    }

    /// One token is taken from a place of an instance or put there.
    pub(crate) fn edit(&mut self, alloc: Global, edit: &Edit<'_>) -> Result<(), NoMemory>
        requires { Ascending self.old }
        ensures { OnOk result (self.new ≡ map (after_step edit.now) self.old) }
    {
        let Some(index) = self.index_of(edit.inst) else {
            return Ok(());
        };
        edit_instance(alloc, &mut self.instances[index], edit)?;
        Ok(())
    }
}

/// The same of one instance: in place where nothing shares it, and else in a copy.
fn edit_instance(alloc: Global, inst: &mut Arc<Inst>, edit: &Edit<'_>) -> Result<(), NoMemory>
    requires { inst.old.value.number ≡ edit.now.inst }
    ensures { OnOk result (inst.new.value ≡ after_step edit.now inst.old.value) }
{
    if let Some(own) = Arc::get_mut(inst) {
        return own.edit(alloc, edit);
    }
    let mut copied = inst.copy()?;
    copied.edit(alloc, edit)?;
    *inst = Arc::new(alloc, copied)?;
    Ok(())
}

/// One more instance in a page: in place where nothing shares it, and else in a copy of what is kept. A
/// page without kept instances is given up.
pub(crate) fn add_shared(
    alloc: Global,
    page: &mut Option<Arc<Page>>,
    kept: u64,
    inst: Inst,
) -> Result<(), NoMemory>
    ensures { OnOk result (Grows kept inst (held_if kept (option_map_or (λ p. p.value) page.old [])) (option_map_or (λ p. p.value) page.new [])) }
{
    if kept == 0 {
        *page = Some(Arc::new(alloc, Page::of_one(alloc, inst)?)?);
        return Ok(());
    }
    match page {
        None => {
            *page = Some(Arc::new(alloc, Page::of_one(alloc, inst)?)?);
            Ok(())
        }
        Some(shared) => add_to(alloc, shared, kept, inst),
    }
}

fn add_to(alloc: Global, page: &mut Arc<Page>, kept: u64, inst: Inst) -> Result<(), NoMemory>
    ensures { OnOk result (Grows kept inst page.old.value page.new.value) }
{
    if let Some(own) = Arc::get_mut(page) {
        return own.add(alloc, inst);
    }
    let mut copied = page.copy_kept(alloc, kept)?;
    copied.add(alloc, inst)?;
    *page = Arc::new(alloc, copied)?;
    Ok(())
}

/// One token is taken from a place of an instance of a page or put there.
pub(crate) fn edit_shared(
    alloc: Global,
    page: &mut Option<Arc<Page>>,
    kept: u64,
    edit: &Edit<'_>,
) -> Result<(), NoMemory>
    requires { Ascending (option_map_or (λ p. p.value) page.old []) }
    ensures { OnOk result (HoldsAfterStep kept edit.now (option_map_or (λ p. p.value) page.old []) (option_map_or (λ p. p.value) page.new [])) }
{
    match page {
        None => Ok(()),
        Some(shared) => edit_page(alloc, shared, kept, edit),
    }
}

/// The same of a page: in place where nothing shares it, and else in a copy of what is kept.
fn edit_page(
    alloc: Global,
    page: &mut Arc<Page>,
    kept: u64,
    edit: &Edit<'_>,
) -> Result<(), NoMemory>
    requires { Ascending page.old.value }
    ensures { OnOk result (HoldsAfterStep kept edit.now page.old.value page.new.value) }
{
    if let Some(own) = Arc::get_mut(page) {
        return own.edit(alloc, edit);
    }
    let mut copied = page.copy_kept(alloc, kept)?;
    copied.edit(alloc, edit)?;
    *page = Arc::new(alloc, copied)?;
    Ok(())
}

/// Whether a number is in the set of its page.
pub(crate) fn is_kept(kept: u64, number: u32) -> bool
    ensures { result ≡ has_bit kept (bit_of number) }
{
    words::is_in(kept, (number.saturating_sub(1) % 64) as usize)
}
