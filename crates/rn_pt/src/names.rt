//! Declarations of places and transitions: what is broken in them is noted, and each name gets its
//! number.
ghost use Rattle.std.specs.Prelude.{◌≡◌, ℕ, List, OnOk, IfOk, map, is_some};
ghost use Rattle.rn_pt.specs.Faults.{first_from, past_limit};
ghost use Rattle.rn_pt.specs.Rules.{number_among, declared_broken};
ghost use Rattle.rn_pt.specs.link.Tables.{found_in, with_name, name_noted};

use crate::fault::Rule;
use crate::first::First;
use crate::plain::{PtPlace, PtTransition};
use crate::table::NameTable;
use rn_model::limits::LONGEST_NAME;
use rn_reading::Named;
use rn_value::NoMemory;
use std::alloc::Global;

/// What is declared by a name.
pub(crate) trait Declared {
    ghost use Rattle.rn_reading.specs.declared.named.Named.{Named};

    ghost name_of: { Self → Named };

    fn name(&self) -> &Named
        ensures { result.now ≡ name_of self.now };
}

impl Declared for PtPlace {
    ghost name_of = { λ place. place.name };

    fn name(&self) -> &Named {
        &self.name
    }
}

impl Declared for PtTransition {
    ghost name_of = { λ transition. transition.name };

    fn name(&self) -> &Named {
        &self.name
    }
}

/// Declares a name under a number: it is short, and new in the table.
fn declare(
    alloc: Global,
    name: &Named,
    number: usize,
    table: &mut NameTable,
    first: &mut First,
) -> Result<(), NoMemory>
    ensures noted { OnOk result (first.new.broken ≡ first_from first.old.broken
        (name_noted (is_some (found_in table.old name.now.text)) name.now)) }
    ensures found { OnOk result ((other : List ℕ) →
        found_in table.new other ≡ with_name (found_in table.old) name.now.text number other) }
{
    let length = name.text.as_str().len();
    first.note_if(length > LONGEST_NAME, Rule::Limit, name.spot);
    let new = table.declare(alloc, &name.text, number)?;
    first.note_if(!new, Rule::Once, name.spot);
    Ok(())
}

/// Notes the first name past a limit, where there are more.
fn note_past_name<T: Declared>(items: &[T], most: usize, first: &mut First)
    ensures { first.new.broken ≡ first_from first.old.broken
        (past_limit most (map (λ name. name.spot) (map T.name_of items.now))) }
{
    if most < items.len() {
        first.note(Rule::Limit, items[most].name().spot);
    }
}

/// The table of the names that are declared here, each with the number of its first declaration.
/// What is broken in the declarations is noted.
pub(crate) fn declare_all<T: Declared>(
    alloc: Global,
    items: &[T],
    most: usize,
    first: &mut First,
) -> Result<NameTable, NoMemory>
    ensures noted { OnOk result (first.new.broken ≡ first_from first.old.broken
        (declared_broken most (map T.name_of items.now))) }
    ensures found { IfOk result (λ table. (name : List ℕ) → found_in table name
        ≡ number_among (map (λ n. n.text) (map T.name_of items.now)) name) }
{
    let mut table = NameTable::new(alloc);
    for i in 0..items.len() {
        declare(alloc, items[i].name(), i, &mut table, first)?;
    }
    note_past_name(items, most, first);
    Ok(table)
}
