//! What a change leaves of what is known. While the lists of who may refer to whom are held, they
//! are only added to, from the changed instances: a holder too many has one more instance looked
//! at, one too few would miss a binding (`docs/SEARCH.md`, 'What a start depends on').
ghost use Rattle.std.specs.Prelude.{◌≡◌, ◌<◌, ℕ, true, OnOk, All, Contains};
ghost use Rattle.rn_model.specs.declared.system.System.{System};
ghost use Rattle.rn_model.specs.Markings.{Marking};
ghost use Rattle.rn_firsts.specs.Known.{ComesAfter, HasFewPlaces, HaveLiveHolders};

use rn_holders::hold_all;
use rn_items::NoMemory;
use rn_model::Nums;
use rn_table::Table;
use std::collections::BTreeSet;

// The holders at a table, of all that its instances refer to.
fn hold_anew(table: &Table, holders: &mut Vec<Nums>) -> Result<(), NoMemory>
    requires { HasFewPlaces table.now.marking }
    ensures { OnOk result ((system : System) →
        HaveLiveHolders system table.now.marking holders.new.items) }
{
    holders.clear();
    let numbers = table.instances()?;
    hold_all(table, numbers.as_slice(), holders)?;
    Ok(())
}

/// The holders at a table that comes after the one before. Where those of the one before are held,
/// only the changed instances are looked at.
pub(crate) fn hold_changes(
    table: &Table,
    changed: &[u32],
    held: bool,
    holders: &mut Vec<Nums>,
) -> Result<(), NoMemory>
    requires { HasFewPlaces table.now.marking }
    ensures { OnOk result ((system : System) (before : Marking) →
        (held ≡ true → HaveLiveHolders system before holders.old.items) →
        ComesAfter system changed.now before table.now.marking →
        HaveLiveHolders system table.now.marking holders.new.items) }
{
    if held {
        hold_all(table, changed, holders)?;
        return Ok(());
    }
    hold_anew(table, holders)?;
    Ok(())
}

// A number that is below another comes to a set.
fn mark(number: u32, until: u32, again: &mut BTreeSet<u32>) -> Result<(), NoMemory>
    ensures stay { OnOk result ((n : ℕ) → Contains again.old.keys n → Contains again.new.keys n) }
    ensures come { OnOk result (number < until → Contains again.new.keys number) }
    ensures below { OnOk result (All (λ n. n < until) again.old.keys →
        All (λ n. n < until) again.new.keys) }
{
    if number >= until {
        return Ok(());
    }
    again.insert(number)?;
    Ok(())
}

/// Those of these numbers that are below another come to a set.
pub(crate) fn mark_all(
    numbers: &[u32],
    until: u32,
    again: &mut BTreeSet<u32>,
) -> Result<(), NoMemory>
    ensures stay { OnOk result ((n : ℕ) → Contains again.old.keys n → Contains again.new.keys n) }
    ensures come { OnOk result ((n : ℕ) → Contains numbers.now n → n < until →
        Contains again.new.keys n) }
    ensures below { OnOk result (All (λ n. n < until) again.old.keys →
        All (λ n. n < until) again.new.keys) }
{
    for number in numbers {
        mark(*number, until, again)?;
    }
    Ok(())
}
