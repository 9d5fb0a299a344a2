//! Tables of names: the number of the first declaration of each.
ghost use Rattle.std.specs.Prelude.{◌≡◌, ◌<◌, ℕ, Option, None, IfOk, OnOk, List, is_none};
ghost use Rattle.rn_declared.specs.link.Tables.{found_in, with_name};

use crate::pattern::Patterns;
use rn_items::Items;
use rn_value::{NoMemory, Str, copy_text};
use std::alloc::Global;
use std::collections::BTreeMap;

/// The numbers of names, each that of the first declaration of the name.
#[derive(Drop)]
pub struct NameTable {
    pub numbers: BTreeMap<Str, usize>,
}

impl NameTable {
    /// A table in which no name is declared.
    pub fn new(alloc: Global) -> NameTable
        ensures { (name : List ℕ) → found_in result name ≡ None }
    {
        NameTable {
            numbers: BTreeMap::new(alloc),
        }
    }

    /// The number of a name that was declared.
    pub fn number(&self, name: &Str) -> Option<usize>
        ensures { result ≡ found_in self.now name.now }
    {
        self.numbers.get(name).copied()
    }

    /// Declares a name under this number, and says whether it is new. A name that is declared again
    /// keeps its first number. A new one is looked up once.
    pub fn declare(&mut self, alloc: Global, name: &Str, number: usize) -> Result<bool, NoMemory>
        ensures new { IfOk result (λ new. new ≡ is_none (found_in self.old name.now)) }
        ensures found { OnOk result ((other : List ℕ) →
            found_in self.new other ≡ with_name (found_in self.old) name.now number other) }
    {
        match self.numbers.insert(copy_text(alloc, name)?, number)? {
            None => Ok(true),
            Some(first) => {
                self.numbers.insert(copy_text(alloc, name)?, first)?;
                Ok(false)
            }
        }
    }
}

/// Names that were declared with a kind, as variables and places are.
#[derive(Drop)]
pub struct Declared {
    pub table: NameTable,
    pub patterns: Patterns,
}

/// Places that were declared, and whether each of them has a capacity.
#[derive(Drop)]
pub struct DeclaredPlaces {
    pub declared: Declared,
    pub capped: Items<bool>,
}
