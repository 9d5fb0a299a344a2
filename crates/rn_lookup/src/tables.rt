//! Tables of names: the number of the first of each name in a list.
ghost use Rattle.std.specs.Prelude.{◌≡◌, ◌<◌, ◌^◌, ℕ, List, Option, Some, None, IfOk, OnOk};
ghost use Rattle.std.specs.Prelude.{length, bytes_eq, if◌then◌else◌};
ghost use Rattle.rn_lookup.specs.Found.{number_from};
ghost use Rattle.rn_lookup.specs.link.Tables.{found_in};

use rn_items::Items;
use rn_model::{Net, Place, Transition};
use rn_value::NoMemory;
use std::alloc::Global;
use std::collections::BTreeMap;

/// What has a name.
pub(crate) trait Named {
    ghost use Rattle.std.specs.Prelude.{List, ℕ};

    ghost name_of: { Self → List ℕ };

    fn name(&self) -> &[u8]
        ensures { result.now ≡ name_of self.now };
}

impl Named for Net {
    ghost name_of = { λ net. net.name };

    fn name(&self) -> &[u8] {
        self.name.as_str().as_bytes()
    }
}

impl Named for Transition {
    ghost name_of = { λ transition. transition.name };

    fn name(&self) -> &[u8] {
        self.name.as_str().as_bytes()
    }
}

impl Named for Place {
    ghost name_of = { λ place. place.name };

    fn name(&self) -> &[u8] {
        self.name.as_str().as_bytes()
    }
}

/// Numbers by name.
#[derive(Drop)]
pub(crate) struct NameTable {
    pub(crate) numbers: BTreeMap<Items<u8>, u32>,
}

impl NameTable {
    /// The number of a name.
    pub(crate) fn number(&self, alloc: Global, name: &[u8]) -> Result<Option<u32>, NoMemory>
        ensures { IfOk result (λ number. number ≡ found_in self.now name.now) }
    {
        let key = Items::from_vec(Vec::from_slice(alloc, name)?);
        Ok(self.numbers.get(&key).copied())
    }

    /// Puts a name with its number, in place of the number that it had.
    fn put(&mut self, alloc: Global, name: &[u8], number: u32) -> Result<(), NoMemory>
        ensures { OnOk result ((word : List ℕ) → found_in self.new word
            ≡ (if bytes_eq name.now word then Some number else found_in self.old word)) }
    {
        let key = Items::from_vec(Vec::from_slice(alloc, name)?);
        self.numbers.insert(key, number)?;
        Ok(())
    }
}

fn empty_table(alloc: Global) -> NameTable
    ensures { (word : List ℕ) → found_in result word ≡ None }
{
    NameTable {
        numbers: BTreeMap::new(alloc),
    }
}

/// The table of a list's names, each with the number of the first that has it.
pub(crate) fn table_of<T: Named>(alloc: Global, items: &[T]) -> Result<NameTable, NoMemory>
    requires { length items.now < 2 ^ 32 }
    ensures { IfOk result (λ table. (word : List ℕ) →
        found_in table word ≡ number_from T.name_of 0 items.now word) }
{
    let mut table = empty_table(alloc);
    let count = items.len();
    for k in 0..count {
        let i = count - 1 - k;
        table.put(alloc, items[i].name(), i as u32)?;
    }
    Ok(table)
}
