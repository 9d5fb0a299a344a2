//! A table of names: the number of the first declaration of each.
ghost use Rattle.std.specs.Prelude.{◌≡◌, ℕ, None, List, IfOk, OnOk, is_none};
ghost use Rattle.rn_pt.specs.link.Tables.{found_in, with_name};

use rn_value::{NoMemory, Str, copy_text};
use std::alloc::Global;
use std::collections::BTreeMap;

/// The numbers of names, each that of the first declaration of the name.
#[derive(Drop)]
pub(crate) struct NameTable {
    pub numbers: BTreeMap<Str, usize>,
}

impl NameTable {
    /// A table in which no name is declared.
    pub(crate) fn new(alloc: Global) -> NameTable
        ensures { (name : List ℕ) → found_in result name ≡ None }
    {
        NameTable {
            numbers: BTreeMap::new(alloc),
        }
    }

    /// The number of a name that was declared.
    pub(crate) fn number(&self, name: &Str) -> Option<usize>
        ensures { result ≡ found_in self.now name.now }
    {
        self.numbers.get(name).copied()
    }

    /// Declares a name under this number, and says whether it is new.
    pub(crate) fn declare(
        &mut self,
        alloc: Global,
        name: &Str,
        number: usize,
    ) -> Result<bool, NoMemory>
        ensures new { IfOk result (λ new. new ≡ is_none (found_in self.old name.now)) }
        ensures found { OnOk result ((other : List ℕ) →
            found_in self.new other ≡ with_name (found_in self.old) name.now number other) }
    {
        if self.numbers.contains_key(name) {
            return Ok(false);
        }
        self.numbers.insert(copy_text(alloc, name)?, number)?;
        Ok(true)
    }
}
