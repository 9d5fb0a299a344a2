//! Declarations of names: what is broken in them is reported, and each gets its number.
ghost use Rattle.std.specs.Prelude.{◌≡◌, ℕ, List, OnOk, IfOk, map, is_some, length};
ghost use Rattle.rn_declared.specs.Faults.{first_from, past_limit};
ghost use Rattle.rn_declared.specs.Names.{number_among, declared_faults};
ghost use Rattle.rn_declared.specs.link.Tables.{found_in, with_name, name_told};

use crate::fault::Rule;
use crate::first::First;
use crate::table::NameTable;
use rn_inscript::PName;
use rn_model::limits::LONGEST_NAME;
use rn_net::{PNet, PPlace, PTransition, PVar};
use rn_value::NoMemory;
use std::alloc::Global;

/// What is declared by a name.
pub trait Named {
    ghost use Rattle.rn_inscript.specs.declared.inscriptions.PName.{PName};

    ghost name_of: { Self → PName };

    fn name(&self) -> &PName
        ensures { result.now ≡ name_of self.now };
}

impl Named for PVar {
    ghost name_of = { λ var. var.name };

    fn name(&self) -> &PName {
        &self.name
    }
}

impl Named for PPlace {
    ghost name_of = { λ place. place.name };

    fn name(&self) -> &PName {
        &self.name
    }
}

impl Named for PTransition {
    ghost name_of = { λ transition. transition.name };

    fn name(&self) -> &PName {
        &self.name
    }
}

impl Named for PNet {
    ghost name_of = { λ net. net.name };

    fn name(&self) -> &PName {
        &self.name
    }
}

/// Declares a name under a number: it is short, and new in the table.
fn declare(
    alloc: Global,
    name: &PName,
    number: usize,
    table: &mut NameTable,
    first: &mut First,
) -> Result<(), NoMemory>
    ensures told { OnOk result (first.new.fault ≡ first_from first.old.fault
        (name_told (is_some (found_in table.old name.now.text)) name.now)) }
    ensures found { OnOk result ((other : List ℕ) →
        found_in table.new other ≡ with_name (found_in table.old) name.now.text number other) }
{
    let length = name.text.as_str().len();
    first.tell_if(length > LONGEST_NAME, Rule::Limit, name.spot);
    let new = table.declare(alloc, &name.text, number)?;
    first.tell_if(!new, Rule::Once, name.spot);
    Ok(())
}

/// Reports the first name past a limit, where there are more.
fn tell_past_name<T: Named>(items: &[T], most: usize, first: &mut First)
    ensures { first.new.fault ≡ first_from first.old.fault
        (past_limit most (map (λ name. name.spot) (map T.name_of items.now))) }
{
    if most < items.len() {
        first.tell(Rule::Limit, items[most].name().spot);
    }
}

/// The table of the names that are declared here, each with the number of its first declaration.
/// What is broken in the declarations is reported.
pub fn declare_all<T: Named>(
    alloc: Global,
    items: &[T],
    most: usize,
    first: &mut First,
) -> Result<NameTable, NoMemory>
    ensures told { OnOk result (first.new.fault ≡ first_from first.old.fault
        (declared_faults most (map T.name_of items.now))) }
    ensures found { IfOk result (λ table. (name : List ℕ) → found_in table name
        ≡ number_among (map (λ n. n.text) (map T.name_of items.now)) name) }
{
    let mut table = NameTable::new(alloc);
    for i in 0..items.len() {
        declare(alloc, items[i].name(), i, &mut table, first)?;
    }
    tell_past_name(items, most, first);
    Ok(table)
}
